//! Room for windows in lock step by an order.
ghost use Rattle.std.specs.Prelude.{◌≡◌, ◌≤◌, IfOk};
ghost use Rattle.window_rows.specs.Rows.{IsLaneCount};

use crate::scratch::LaneScratch;
use lane_banks::LanePermutations;
use lte_bits::NoMemory;
use std::alloc::Global;
use std::marker::Model;

/// Room for N windows of up to some width: also for their soft values by rows, and the banks of each step.
#[derive(Drop)]
pub struct LaneWork<const N: usize> {
    pub(crate) scratch: LaneScratch<N>,
    pub(crate) systematic: Vec<[i16; N]>,
    pub(crate) parity: Vec<[i16; N]>,
    pub(crate) permutations: LanePermutations<N>,
}

impl<const N: usize> Model for LaneWork<N> {
    ghost use Rattle.std.specs.Prelude.{◌≡◌, ℕ, length};

    ghost Value = { ℕ };

    ghost view = { λ w. w.scratch.kernel };

    ghost invariant = { λ w. (length w.systematic.items ≡ w.scratch.kernel)
        × (length w.parity.items ≡ w.scratch.kernel)
        × (length w.permutations.rows.items ≡ w.scratch.kernel)
        × (length w.permutations.banks.items ≡ w.scratch.kernel) };
}

impl<const N: usize> LaneWork<N> {
    /// Allocates for windows of up to `width` positions; `width` is 8 to 768, and N is 8, 16 or 32.
    pub fn new(alloc: Global, width: usize) -> Result<LaneWork<N>, NoMemory>
        requires lanes { IsLaneCount N }
        requires least { 8 ≤ width }
        requires most { width ≤ 768 }
        ensures { IfOk result (λ work. work ≡ width) }
    {
        let scratch = LaneScratch::<N>::new(alloc, width)?;
        let systematic = vec![in alloc; [0i16; N]; width]?;
        let parity = vec![in alloc; [0i16; N]; width]?;
        let permutations = LanePermutations::<N>::new(alloc, width)?;
        Ok(LaneWork {
            scratch,
            systematic,
            parity,
            permutations,
        })
    }

    /// Returns the greatest width for which there is room.
    pub fn room(&self) -> usize
        ensures { result ≡ self.now }
    {
        self.scratch.kernel.room()
    }
}
