//! The turbo encoder: the three coded streams of a code block (36.212 5.1.3.2).
#![tactic(auto)]

pub mod addresses;
mod cells;
mod constituent;
pub mod encoder;
mod fours;
mod tails;

pub use addresses::InterleaverAddresses;
pub use encoder::{encode, encode_with};
