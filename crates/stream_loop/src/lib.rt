//! The loop of commands over a stream of coded blocks: the header is read, and then block by block
//! each is handed to the command, up to the end of the stream or to the byte that is refused.
#![tactic(auto)]

mod handler;
mod rounds;
mod softs;
mod stream;

pub use handler::{Handled, Handler};
pub use rounds::status_of;
pub use softs::{push_bytes, softs_of};
pub use stream::Stream;
