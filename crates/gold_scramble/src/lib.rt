//! Scrambling by the pseudo-random sequence of 36.211.
#![tactic(auto)]

pub mod gold;
pub mod initial;
pub mod laws;
mod registers;
pub mod scrambling;

pub use gold::Gold;
pub use initial::Init;
pub use scrambling::{scramble_bits, turn_softs};
