//! The internal interleaver of the turbo code (36.212 5.1.3.2.3): its 188 sizes, their permutations and
//! banks, and interleavers with constant parameters.
#![tactic(auto)]

mod banks;
mod fixed;
mod groups;
pub mod interleaver;
mod modular;
mod table;
mod walk;
mod windows;

pub use banks::{bank_row, windows_stay_apart};
pub use fixed::FixedQpp;
pub use interleaver::Interleaver;
pub use table::{addresses, qpp};
pub use walk::Walk;
pub use windows::win;
