//! Noise on sent bits, and payloads of trials, both from a seed.
#![tactic(auto)]

pub mod channel;
mod chunks;
pub mod noise;
pub mod payloads;
mod terms;
mod words;

pub use channel::NoiseChannel;
pub use noise::{noise_terms, noisy};
pub use payloads::payload;
