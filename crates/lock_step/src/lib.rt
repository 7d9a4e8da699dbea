//! Windows of the max-log decoder in lock step: lane t of each vector is window t.
#![tactic(auto)]

mod borders;
mod inputs;
mod joined;
mod lanes;
mod metrics;
mod rows;
mod scratch;

pub use inputs::{BordersIn, SoftRows};
pub use rows::run_rows;
pub use scratch::KernelScratch;
