//! The commands that write a stream of the blocks that they read: `channel`, `points`, `scramble` and
//! `upgrade`.
#![tactic(auto)]

mod bits;
mod channel;
mod converter;
pub mod laws;
mod points;
mod scramble;
mod upgrade;

pub use converter::{Converted, Converter, Place};
pub use points::Points;
pub use scramble::Scramble;
pub use upgrade::Upgrade;
