//! The commands `codeword` and `encode`: the bits that are sent of an input.
#![tactic(auto)]

mod blocks;
mod codeword;
mod encode;
mod input;

pub use codeword::Codeword;
pub use encode::Encode;
