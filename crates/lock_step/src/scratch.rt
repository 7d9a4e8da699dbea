//! Room for the metrics of N windows.
ghost use Rattle.std.specs.Prelude.{◌≡◌, ◌≤◌, IfOk};
ghost use Rattle.window_rows.specs.Rows.{IsLaneCount};

use lte_bits::NoMemory;
use std::alloc::Global;
use std::marker::Model;

/// Room for the metrics of N windows of up to some width.
#[derive(Drop)]
pub struct KernelScratch<const N: usize> {
    pub(crate) rows: Vec<[[i16; N]; 8]>,
}

impl<const N: usize> Model for KernelScratch<N> {
    ghost use Rattle.std.specs.Prelude.{ℕ, ◌≤◌, length};

    ghost Value = { ℕ };

    ghost view = { λ w. length w.rows.items };

    ghost invariant = { λ w. length w.rows.items ≤ 768 };
}

impl<const N: usize> KernelScratch<N> {
    /// Allocates for windows of up to `width` positions; `width` is 8 to 768.
    pub fn new(alloc: Global, width: usize) -> Result<KernelScratch<N>, NoMemory>
        requires lanes { IsLaneCount N }
        requires least { 8 ≤ width }
        requires most { width ≤ 768 }
        ensures { IfOk result (λ scratch. scratch ≡ width) }
    {
        Ok(KernelScratch {
            rows: vec![in alloc; [[0; N]; 8]; width]?,
        })
    }

    /// Returns the greatest width for which there is room.
    pub fn room(&self) -> usize
        ensures { result ≡ self.now }
    {
        self.rows.len()
    }
}
