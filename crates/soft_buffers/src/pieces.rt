//! The values of a transmission, block after block.
ghost use Rattle.std.specs.Prelude.{◌≡◌, ◌≤◌, ◌<◌, ◌+◌, ◌*◌, ℤ, List, length};
ghost use Rattle.model_sender.specs.Segmentation.{size};
ghost use Rattle.model_sender.specs.CircularBuffer.{Fits, piece_length};
ghost use Rattle.model_receiver.specs.SoftCells.{piece, reception};
ghost use Rattle.soft_buffers.specs.Buffers.{AreLong, HasTaken, HaveTaken};

use crate::values::add_values;
use lte_bits::{List, Soft};
use rate_match::{Match, piece_len, ring_of, start};
use segmentation::plans::Plan;

/// Adds the values of block `r` to its cells.
fn add_piece(cells: &mut [Soft], plan: &Plan, m: &Match, r: usize, rv: u8, values: &[Soft])
    requires block { r < plan.now.c }
    requires cells { length cells.old ≡ 3 * (size plan.now r + 4) }
    requires fits { Fits m.now plan.now }
    requires version { rv ≤ 3 }
    requires values { length values.now ≡ piece_length m.now plan.now.c r }
    ensures cells { (all : List ℤ) → values.now ≡ piece plan.now (reception m.now rv all) r →
        HasTaken plan.now (reception m.now rv all) r cells.old cells.new }
    ensures long { length cells.new ≡ length cells.old }
{
    let ring = ring_of(m, plan, r);
    add_values(cells, ring, start(ring.k, ring.size, rv), values);
}

/// Adds the values of a whole codeword to the cells of its blocks.
pub fn add_codeword(blocks: &mut [List<Soft>], plan: &Plan, m: &Match, rv: u8, softs: &[Soft])
    requires count { length blocks.old ≡ plan.now.c }
    requires long { AreLong plan.now blocks.old }
    requires fits { Fits m.now plan.now }
    requires version { rv ≤ 3 }
    requires values { length softs.now ≡ m.now.g }
    ensures cells { HaveTaken plan.now (reception m.now rv softs.now) blocks.old blocks.new }
    ensures count { length blocks.new ≡ plan.now.c }
    ensures long { AreLong plan.now blocks.new }
{
    let mut rest = softs;
    for r in 0..plan.c {
        let (values, after) = rest.split_at(piece_len(m, plan, r));
        add_piece(blocks[r].as_mut_slice(), plan, m, r, rv, values);
        rest = after;
    }
}
