//! Rows of numbers with a lane for each window, shared by the lock-step kernel and the banks of cells.
#![tactic(auto)]

pub mod rows;
pub mod zeros;
