//! The soft buffers of a transport block.
ghost use Rattle.std.specs.Prelude.{◌≡◌, ◌≤◌, ◌<◌, ◌+◌, ◌*◌, ◌++◌, [], ◌∷◌, List, IfOk, flat_map, length, pos, replicate};
ghost use Rattle.model_sender.specs.Segmentation.{fill, size};
ghost use Rattle.model_sender.specs.CircularBuffer.{FitsIn};
ghost use Rattle.rate_match.specs.Matching.{limit_of};
ghost use Rattle.model_receiver.specs.SoftCells.{Reception, reception, soft_streams};
ghost use Rattle.soft_buffers.specs.Buffers.{HaveTaken, Hold, cells_of_block, streams_of_cells};
ghost use Rattle.soft_buffers.specs.Flat.{by_block, cell_count};

use crate::flat::{divided, joined};
use crate::pieces::add_codeword;
use crate::streams::streams_of;
use lte_bits::{List, NoMemory, Soft, SoftStreams};
use rate_match::{Buffer, Match};
use segmentation::plans::Plan;
use segmentation::{fill, size};
use std::alloc::Global;
use std::marker::Model;

/// The soft cells of a transport block: one for each bit of the coded streams of each code block, 3 (K + 4) a
/// block. A cell is the sum of the soft values received for its bit, clamped to -127 to 127 at each addition.
#[derive(Drop)]
pub struct HarqBuffers {
    plan: Plan,
    buffer: Buffer,
    blocks: Vec<List<Soft>>,
}

impl Model for HarqBuffers {
    ghost use Rattle.soft_buffers.specs.Buffers.{Buffers};

    ghost Value = { Buffers };

    ghost use Rattle.soft_buffers.specs.Shown.{shown, IsKept};

    ghost view = { shown };

    ghost invariant = { IsKept };
}

/// Returns the cells of a block of `k` bits before the first transmission.
fn fresh_cells(alloc: Global, k: usize) -> Result<List<Soft>, NoMemory>
    requires { k ≤ 6144 }
    ensures { IfOk result (λ cells. cells ≡ replicate (3 * (k + 4)) (pos 0)) }
{
    Ok(List::from_vec(vec![in alloc; Soft::ZERO; 3 * (k + 4)]?))
}

impl HarqBuffers {
    /// Returns the buffers of a transport block of this plan, which the soft buffer fits, before the first
    /// transmission: every cell is 0. Allocates a byte for each cell.
    pub fn new(alloc: Global, plan: &Plan, buffer: Buffer) -> Result<HarqBuffers, NoMemory>
        requires { FitsIn (limit_of buffer) plan.now.c plan.now.k_plus }
        ensures plan { IfOk result (λ b. b.plan ≡ plan.now) }
        ensures limit { IfOk result (λ b. b.limit ≡ limit_of buffer) }
        ensures cells { IfOk result (λ b. Hold b []) }
    {
        let mut blocks = Vec::with_capacity(alloc, plan.c)?;
        for r in 0..plan.c {
            blocks.push(fresh_cells(alloc, size(plan, r))?)?;
        }
        Ok(HarqBuffers {
            plan: *plan,
            buffer,
            blocks,
        })
    }

    /// Returns the buffers of a transport block of this plan, which the soft buffer fits, with the first
    /// cells of `cells`, block after block. Allocates a byte for each cell.
    pub fn from_cells(
        alloc: Global,
        plan: &Plan,
        buffer: Buffer,
        cells: &[Soft],
    ) -> Result<HarqBuffers, NoMemory>
        requires fits { FitsIn (limit_of buffer) plan.now.c plan.now.k_plus }
        requires cells { cell_count plan.now ≤ length cells.now }
        ensures plan { IfOk result (λ b. b.plan ≡ plan.now) }
        ensures limit { IfOk result (λ b. b.limit ≡ limit_of buffer) }
        ensures cells { IfOk result (λ b. b.cells ≡ by_block plan.now cells.now) }
    {
        Ok(HarqBuffers {
            plan: *plan,
            buffer,
            blocks: divided(alloc, plan, cells)?,
        })
    }

    /// Returns all cells, block after block, in a new list.
    pub fn cells(&self, alloc: Global) -> Result<List<Soft>, NoMemory>
        ensures { IfOk result (λ cells. cells ≡ flat_map (λ block. block) self.now.cells) }
    {
        joined(alloc, self.blocks.as_slice())
    }

    /// Combines the G soft values of a further transmission, sent with redundancy version `rv`, 0 to 3, by a
    /// matching with this soft buffer (HARQ soft combining): adds each to the cell of its bit (36.212,
    /// 5.1.4.1.2 and 5.1.5), and clamps the sum at once. Allocates nothing.
    pub fn combine(&mut self, m: &Match, rv: u8, softs: &[Soft])
        requires buffer { m.now.limit ≡ self.old.limit }
        requires version { rv ≤ 3 }
        requires values { length softs.now ≡ m.now.g }
        ensures plan { self.new.plan ≡ self.old.plan }
        ensures limit { self.new.limit ≡ self.old.limit }
        ensures added { HaveTaken self.old.plan (reception m.now rv softs.now) self.old.cells self.new.cells }
        ensures cells { (xs : List Reception) → Hold self.old xs →
            Hold self.new (xs ++ reception m.now rv softs.now ∷ []) }
    {
        add_codeword(self.blocks.as_mut_slice(), &self.plan, m, rv, softs);
    }

    /// Returns the soft streams of block `r`, which is below C: its cells, with 127 at the fillers of d0
    /// and 0 at those of d1. Allocates the three streams, of K + 4 values each.
    pub fn streams(&self, alloc: Global, r: usize) -> Result<SoftStreams, NoMemory>
        requires { r < self.now.plan.c }
        ensures cells { IfOk result (λ streams. streams ≡ streams_of_cells (size self.now.plan r)
            (fill self.now.plan r) (cells_of_block self.now.cells r)) }
        ensures received { (xs : List Reception) → Hold self.now xs →
            IfOk result (λ streams. streams ≡ soft_streams self.now.plan xs r) }
    {
        streams_of(
            alloc,
            size(&self.plan, r),
            fill(&self.plan, r),
            self.blocks[r].as_slice(),
        )
    }
}
