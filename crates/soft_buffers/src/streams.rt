//! The soft streams of a code block from its cells.
ghost use Rattle.std.specs.Prelude.{◌≡◌, ◌≤◌, ◌+◌, ◌*◌, IfOk, length};
ghost use Rattle.model_receiver.specs.SoftCells.{begun_with};
ghost use Rattle.soft_buffers.specs.Buffers.{streams_of_cells};

use lte_bits::{List, NoMemory, Soft, SoftStreams};
use std::alloc::Global;

/// Returns the cells, the first `fill` of which are replaced by `filler`.
fn begun_with(
    alloc: Global,
    fill: usize,
    filler: Soft,
    cells: &[Soft],
) -> Result<List<Soft>, NoMemory>
    requires within { fill ≤ length cells.now }
    requires few { length cells.now ≤ 6148 }
    ensures { IfOk result (λ stream. stream ≡ begun_with fill filler cells.now) }
{
    let mut stream = Vec::with_capacity(alloc, cells.len())?;
    stream.resize(fill, filler)?;
    stream.extend_from_slice(&cells[fill..])?;
    Ok(List::from_vec(stream))
}

/// Returns the streams of a block of `k` bits with these cells, 127 at the fillers of d0, and 0 at those of
/// d1.
pub fn streams_of(
    alloc: Global,
    k: usize,
    fill: usize,
    cells: &[Soft],
) -> Result<SoftStreams, NoMemory>
    requires few { k ≤ 6144 }
    requires fillers { fill ≤ k }
    requires cells { length cells.now ≡ 3 * (k + 4) }
    ensures { IfOk result (λ streams. streams ≡ streams_of_cells k fill cells.now) }
{
    let (d0, after) = cells.split_at(k + 4);
    let (d1, d2) = after.split_at(k + 4);
    Ok(SoftStreams {
        fill,
        d0: begun_with(alloc, fill, Soft::from_i8(127), d0)?,
        d1: begun_with(alloc, fill, Soft::ZERO, d1)?,
        d2: begun_with(alloc, 0, Soft::ZERO, d2)?,
    })
}
