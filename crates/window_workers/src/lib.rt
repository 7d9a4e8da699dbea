//! The decoding of a code block by workers that share a board of its windows and live over all its
//! halves.
#![tactic(auto)]

mod assembly;
mod bits;
pub mod common;
pub mod gate;
mod half_end;
pub mod job;
mod opening;
mod opening_pieces;
mod order;
pub mod piece;
mod serving;
mod shared;
mod strip;
mod taking;
mod view;
mod window;

pub use common::WindowCommon;
pub use gate::{Gate, NoGate};
pub use job::DecodingJob;
pub use opening::open_board;
pub use piece::WindowPiece;
pub use serving::serve;
pub use shared::decode_block_shared;
pub use taking::take_result;
