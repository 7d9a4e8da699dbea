//! The commands of the program, over a source of bytes and two sinks.
#![tactic(auto)]

mod performing;
mod top_calls;

pub use command_words::{Command, WordRefusal, read_words};
pub use run_loop::{SinkName, Status};
pub use top_calls::{run, run_alone, run_gated};
