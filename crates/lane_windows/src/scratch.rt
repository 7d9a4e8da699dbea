//! Room for windows in lock step.
ghost use Rattle.std.specs.Prelude.{◌≡◌, ◌≤◌, IfOk, length};
ghost use Rattle.window_rows.specs.Rows.{IsLaneCount};

use lock_step::KernelScratch;
use lte_bits::NoMemory;
use std::alloc::Global;

/// Room for the metrics of N windows, and for their cells in the order of the windows.
#[derive(Drop)]
pub struct LaneScratch<const N: usize> {
    pub kernel: KernelScratch<N>,
    pub values: Vec<[i16; N]>,
    pub sums: Vec<[i16; N]>,
    ghost values_room: { length values.items ≡ kernel },
    ghost sums_room: { length sums.items ≡ kernel },
}

impl<const N: usize> LaneScratch<N> {
    /// Allocates for windows of `width` positions.
    pub fn new(alloc: Global, width: usize) -> Result<LaneScratch<N>, NoMemory>
        requires lanes { IsLaneCount N }
        requires least { 8 ≤ width }
        requires most { width ≤ 768 }
        ensures { IfOk result (λ e. e.kernel ≡ width) }
    {
        let kernel = KernelScratch::<N>::new(alloc, width)?;
        let values = vec![in alloc; [0i16; N]; width]?;
        let sums = vec![in alloc; [0i16; N]; width]?;
        Ok(LaneScratch {
            kernel,
            values,
            sums,
        })
    }
}
