//! The command `batch`: `decode` with several transport blocks at once.
#![tactic(auto)]

mod batch;
mod each;
pub mod job;
mod parts;
pub mod reading;
mod rounds;
mod runner;

pub use batch::Batch;
pub use each::run_each;
pub use job::BlockJob;
pub use runner::{Outcomes, Pipes, Runner};
