//! Bits, lists and code blocks: the plain types of the coding chain.
#![tactic(auto)]

pub mod bit;
pub mod block;
pub mod list;
pub mod packing;
pub mod soft;

pub use bit::{Bit, Cell};
pub use block::{Block, SoftStreams, Streams};
pub use list::{List, NoMemory};
pub use packing::{byte_of, pack, push_unpacked, unpack};
pub use soft::Soft;
