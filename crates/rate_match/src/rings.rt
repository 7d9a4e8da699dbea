//! The part of a code block's circular buffer that is sent (36.212 5.1.4.1.2).
ghost use Rattle.std.specs.Prelude.{◌≡◌, ◌*◌, ◌<◌, ◌≤◌, Contains};
ghost use Rattle.model_sender.specs.Interleaver.{sizes};
ghost use Rattle.model_sender.specs.Segmentation.{size, fill};
ghost use Rattle.model_sender.specs.CircularBuffer.{Fits, buffer_length, buffer_size, rows_of};
ghost use Rattle.segmentation.specs.Plans.{IsPlan};

use crate::matching::Match;
use crate::numbers::{buffer_len, rows_of};
use segmentation::plans::Plan;
use segmentation::{fill, size};

/// The first `size` places of the circular buffer (36.212, 5.1.4.1.2) of a block of `k` bits, whose first
/// `fill` are fillers and whose streams take `rows` rows. It holds all of d0.
#[derive(Clone, Copy)]
pub struct Ring {
    pub k: usize,
    pub fill: usize,
    pub rows: usize,
    pub size: usize,
    pub ghost few: { k ≤ 6144 },
    pub ghost fills: { fill ≤ k },
    pub ghost height: { rows ≡ rows_of k },
    pub ghost some: { 0 < size },
    pub ghost within: { size ≤ buffer_size k },
    pub ghost keeps: { 32 * rows_of k ≤ size },
}

/// Returns the first N_cb places of the circular buffer of block `r`, from which it is sent. `r` is below C,
/// and the buffer fits the plan.
pub fn ring_of(m: &Match, plan: &Plan, r: usize) -> Ring
    requires block { r < plan.now.c }
    requires fits { Fits m.now plan.now }
    ensures size { result.k ≡ size plan.now r }
    ensures sized { Contains sizes result.k }
    ensures fillers { result.fill ≡ fill plan.now r }
    ensures places { result.size ≡ buffer_length m.now.limit plan.now.c (size plan.now r) }
    ensures lawful { IsPlan plan.now }
{
    let k = size(plan, r);
    let places = buffer_len(m, plan, r);
    Ring {
        k,
        fill: fill(plan, r),
        rows: rows_of(k),
        size: places,
    }
}
