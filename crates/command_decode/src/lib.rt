//! The command `decode`: the payloads of the blocks of a stream of soft values.
#![tactic(auto)]

mod decoding;
mod lines;

pub use decoding::{Decoding, Received, handled};
pub use lines::last_line;
