//! The decoding of a code block whose windows run in lock step: their cells are in banks, and those of all
//! windows at one step in one row.
#![tactic(auto)]

ghost use Rattle.std.specs.Prelude.{◌≡◌, ◌+◌, IfOk, length};
ghost use Rattle.model_receiver.specs.Decoding.{code_result};
ghost use Rattle.window_rows.specs.Rows.{IsLaneCount};

mod borders;
mod crossed;
mod decoder;
mod half_rows;
mod halves;
mod lane_views;
mod reference;
mod scratch;

use decoder::LaneDecoder;
use half_iteration::decode_halves;
pub use lane_banks::{Banks, Order, crossbar};
use lte_bits::{NoMemory, SoftStreams};
pub use reference::{LaneWork, run_lock_step};
use std::alloc::Global;
use window_decode::{CodeResult, Shape};

/// Decodes a code block in N windows at once: returns the result of the first iteration whose check holds, or
/// else of the last that the shape allows. N is 8, 16 or 32, and the shape's number of windows. The streams
/// have length K + 4, and as many fillers as the shape.
pub fn decode_block_lanes<const N: usize>(
    alloc: Global,
    streams: &SoftStreams,
    shape: &Shape,
) -> Result<CodeResult, NoMemory>
    requires lanes { IsLaneCount N }
    requires windows { shape.now.windows ≡ N }
    requires fill { streams.now.fill ≡ shape.now.f }
    requires d0 { length streams.now.d0 ≡ shape.now.k + 4 }
    requires d1 { length streams.now.d1 ≡ shape.now.k + 4 }
    requires d2 { length streams.now.d2 ≡ shape.now.k + 4 }
    ensures { IfOk result (λ r. r ≡ code_result streams.now shape.now) }
{
    let decoder = LaneDecoder::<N>::new(alloc, streams, shape)?;
    decode_halves(alloc, decoder, shape)
}
