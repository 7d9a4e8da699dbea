//! The cells of windows that run in lock step, in banks: those of all windows at one step are in one row.
#![tactic(auto)]

mod banks;
mod bits;
mod cells;
mod permutations;
mod places;
mod reference;
mod shuffles;

pub use banks::Banks;
pub use cell_shares::Order;
pub use permutations::LanePermutations;
pub use places::permutations_of;
pub use reference::{crossbar, follow};
