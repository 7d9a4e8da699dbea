//! The command `trial`: payloads from a seed, sent, received with noise, and counted.
#![tactic(auto)]

mod block;
mod counts;
mod trial;
mod whole_trial;

pub use trial::Trial;
pub use whole_trial::run_trial;
