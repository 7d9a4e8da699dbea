//! The rate matching of turbo coded transport blocks (36.212 5.1.4.1): its parameters, transmissions, the
//! required soft buffers, and bit selection.
#![tactic(auto)]

mod code_blocks;
mod coded;
mod codewords;
mod cursor;
mod fitting;
pub mod matching;
mod numbers;
pub mod rings;
pub mod runs;
mod selecting;
pub mod sends;
pub mod walk;

pub use coded::Coded;
pub use codewords::codeword;
pub use fitting::{fits, fits_buffer, fits_lengths, fits_plan};
pub use matching::{BadMatch, Buffer, Match};
pub use model_sender::Spot;
pub use numbers::{buffer_len, piece_len, start};
pub use rings::{Ring, ring_of};
pub use runs::Run;
pub use selecting::{select, spot};
pub use sends::Sends;
pub use walk::Walk;
