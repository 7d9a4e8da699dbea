//! The cells of all code blocks in one list, block after block.
ghost use Rattle.std.specs.Prelude.{◌≡◌, ◌≤◌, ◌<◌, IfOk, flat_map, length};
ghost use Rattle.segmentation.specs.Plans.{IsPlan};
ghost use Rattle.soft_buffers.specs.Buffers.{AreLong};
ghost use Rattle.soft_buffers.specs.Flat.{by_block, cell_count, cells_in};

use lte_bits::{List, NoMemory, Soft};
use segmentation::plans::Plan;
use segmentation::size;
use std::alloc::Global;

/// Returns the cells of block `r`, which is below C.
fn cells_in(plan: &Plan, r: usize) -> usize
    requires { r < plan.now.c }
    ensures value { result ≡ cells_in plan.now r }
    ensures few { result ≤ 18444 }
    ensures lawful { IsPlan plan.now }
{
    3 * (size(plan, r) + 4)
}

/// Returns how many cells all code blocks of a transport block have, at most 461,100.
pub fn cell_count(plan: &Plan) -> usize
    ensures { result ≡ cell_count plan.now }
{
    let mut count = 0;
    for r in 0..plan.c {
        count += cells_in(plan, r);
    }
    count
}

/// Splits the first cells of `cells` into those of each block.
pub(crate) fn divided(
    alloc: Global,
    plan: &Plan,
    cells: &[Soft],
) -> Result<Vec<List<Soft>>, NoMemory>
    requires { cell_count plan.now ≤ length cells.now }
    ensures { IfOk result (λ blocks. blocks.items ≡ by_block plan.now cells.now) }
{
    let mut rest = cells;
    let mut blocks = Vec::with_capacity(alloc, plan.c)?;
    for r in 0..plan.c {
        let (own, after) = rest.split_at(cells_in(plan, r));
        blocks.push(List::from_vec(Vec::from_slice(alloc, own)?))?;
        rest = after;
    }
    Ok(blocks)
}

/// Returns the cells of all blocks, one after the other.
pub(crate) fn joined(alloc: Global, blocks: &[List<Soft>]) -> Result<List<Soft>, NoMemory>
    ensures { IfOk result (λ cells. cells ≡ flat_map (λ block. block) blocks.now) }
{
    let mut cells = Vec::new(alloc);
    for block in blocks {
        cells.extend_from_slice(block.as_slice())?;
    }
    Ok(List::from_vec(cells))
}
