//! A code block decoded on one thread from its soft values.
ghost use Rattle.std.specs.Prelude.{◌≡◌, ◌+◌, ◌*◌, ◌≤◌, ◌<◌, IfOk, length};
ghost use Rattle.model_receiver.specs.Decoding.{code_result};
ghost use Rattle.model_receiver.specs.SoftCells.{begun_with};
ghost use Rattle.half_iteration.specs.Views.{AreStreams};
ghost use Rattle.soft_buffers.specs.Buffers.{streams_of_cells};

use lane_windows::decode_block_lanes;
use lte_bits::{List, NoMemory, Soft, SoftStreams};
use serial_decode::decode_block;
use std::alloc::Global;
use window_decode::{CodeResult, Shape};

/// Returns values, the first `fill` of which are replaced by `filler`.
fn begun_with(
    alloc: Global,
    fill: usize,
    filler: Soft,
    values: &[Soft],
) -> Result<List<Soft>, NoMemory>
    requires within { fill ≤ length values.now }
    requires few { length values.now ≤ 6148 }
    ensures { IfOk result (λ stream. stream ≡ begun_with fill filler values.now) }
{
    let mut stream = Vec::with_capacity(alloc, values.len())?;
    stream.resize(fill, filler)?;
    stream.extend_from_slice(&values[fill..])?;
    Ok(List::from_vec(stream))
}

/// Returns the soft streams of a block of `k` bits from the values of d0, of d1 and of d2, with 127 at the
/// fillers of d0, and 0 at those of d1.
pub fn streams_of(
    alloc: Global,
    k: usize,
    fill: usize,
    values: &[Soft],
) -> Result<SoftStreams, NoMemory>
    requires few { k ≤ 6144 }
    requires fillers { fill < k }
    requires values { length values.now ≡ 3 * (k + 4) }
    ensures { IfOk result (λ streams. streams ≡ streams_of_cells k fill values.now) }
{
    let (d0, after) = values.split_at(k + 4);
    let (d1, d2) = after.split_at(k + 4);
    Ok(SoftStreams {
        fill,
        d0: begun_with(alloc, fill, Soft::from_i8(127), d0)?,
        d1: begun_with(alloc, fill, Soft::ZERO, d1)?,
        d2: begun_with(alloc, 0, Soft::ZERO, d2)?,
    })
}

/// Decodes a code block: 8, 16 or 32 windows in lock step, and any other number of them one after the other.
pub fn decode_alone(
    alloc: Global,
    streams: &SoftStreams,
    shape: &Shape,
) -> Result<CodeResult, NoMemory>
    requires { AreStreams streams.now shape.now }
    ensures { IfOk result (λ r. r ≡ code_result streams.now shape.now) }
{
    match shape.windows() {
        8 => decode_block_lanes::<8>(alloc, streams, shape),
        16 => decode_block_lanes::<16>(alloc, streams, shape),
        32 => decode_block_lanes::<32>(alloc, streams, shape),
        _ => decode_block(alloc, streams, shape),
    }
}
