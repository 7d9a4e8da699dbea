//! The reception of a transport block: its transmissions, one after the other, and its outcome.
#![tactic(auto)]

mod alone;
pub mod laws;
mod payload;
mod progress;
mod receiving;
mod shapes;
mod shared;
mod steps;
mod task;
mod tries;

pub use model_receiver::{DecoderLimits, TbOutcome};
pub use receiving::{receive, receive_alone};
pub use shared::receive_shared;
pub use steps::{Carried, carried_by, try_alone};
pub use task::Task;
pub use tries::Decoded;
