//! Jobs run by several threads: a relay hands out their numbers, and the answers come back over a queue.
#![tactic(auto)]

pub mod completion;
mod filling;
mod finishing;
pub mod hand;
mod job;
pub mod known;
pub mod laws;
mod pipeline;
mod relay;
mod results;
mod sender;
mod slots;
mod working;

pub use hand::{Hand, Next, Relay};
pub use job::{Job, NoStart, Start};
pub use pipeline::through;
