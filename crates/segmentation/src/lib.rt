//! The segmentation of a transport block into code blocks (36.212 5.1.2), and desegmentation.
#![tactic(auto)]

mod cutting;
pub mod joined;
mod payloads;
mod planning;
pub mod plans;
pub mod round_trip;
mod sizes;
mod transport;

pub use cutting::cut;
pub use payloads::uncut;
pub use planning::{BadLength, MOST_BYTES, fill, plan, size};
pub use transport::TransportBlock;
