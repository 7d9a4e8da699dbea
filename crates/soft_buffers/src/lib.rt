//! Saturating soft buffers of a transport block over several transmissions.
#![tactic(auto)]

pub mod buffers;
pub mod flat;
pub mod laws;
mod pieces;
mod streams;
mod values;

pub use buffers::HarqBuffers;
pub use flat::cell_count;
