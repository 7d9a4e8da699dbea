//! Tests of whether soft buffers are large enough.
ghost use Rattle.std.specs.Prelude.{◌≡◌, ◌≤◌, ◌↔◌, IsTrue};
ghost use Rattle.model_sender.specs.CircularBuffer.{Fits, FitsIn};
ghost use Rattle.rate_match.specs.Matching.{limit_of};
ghost use Rattle.rate_match.specs.Fitting.{FitsAll, fits_all};

use crate::matching::{Buffer, Match};
use crate::numbers::rows_of;
use segmentation::plan;
use segmentation::plans::Plan;

/// Returns whether the buffer is full, or its part for each code block, N_cb (36.212, 5.1.4.1.2), holds all
/// of the first stream of the largest block.
pub fn fits_buffer(buffer: Buffer, plan: &Plan) -> bool
    ensures { IsTrue result ↔ FitsIn (limit_of buffer) plan.now.c plan.now.k_plus }
{
    match buffer {
        Buffer::Full => true,
        Buffer::Limited(limit) => 32 * rows_of(plan.k_plus) <= limit as usize / plan.c,
    }
}

/// Returns `fits_buffer` of the buffer of a matching.
pub fn fits_plan(m: &Match, plan: &Plan) -> bool
    ensures { IsTrue result ↔ Fits m.now plan.now }
{
    fits_buffer(m.buffer(), plan)
}

/// Returns whether `fits_buffer` holds for the plan of every length from 1 to `tb`, which is 1 to 18,722. A
/// longer transport block needs at least as large a buffer, so that the plan of `tb` decides.
pub fn fits_lengths(buffer: Buffer, tb: usize) -> bool
    requires some { 1 ≤ tb }
    requires few { tb ≤ 18722 }
    ensures { result ≡ fits_all (limit_of buffer) tb }
{
    match plan(tb) {
        Ok(plan) => fits_buffer(buffer, &plan),
        Err(_) => unreachable!(),
    }
}

/// Returns `fits_lengths` of the buffer of a matching.
pub fn fits(m: &Match, tb: usize) -> bool
    requires some { 1 ≤ tb }
    requires few { tb ≤ 18722 }
    ensures fits { IsTrue result ↔ FitsAll m.now.limit tb }
    ensures test { result ≡ fits_all m.now.limit tb }
{
    fits_lengths(m.buffer(), tb)
}
