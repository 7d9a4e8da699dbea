//! Banks filled, read and written cell by cell: the decoder begins with banks of zeros, and brings and puts back
//! whole rows of numbers.
ghost use Rattle.std.specs.Prelude.{◌≡◌, ◌≢◌, ℕ, ◌+◌, ◌*◌, ◌/◌, ◌%◌, ◌<◌, ◌≤◌, IfOk, length, map};
ghost use Prim.Native.Nat.{◌∣◌};
ghost use Rattle.std.specs.List.{range_with_len};
ghost use Rattle.model_receiver.specs.Windows.{cell_at};
ghost use Rattle.window_rows.specs.Rows.{IsLaneCount};

use crate::banks::Banks;
use crate::cells::{lane_cell, split};
use lte_bits::{List, NoMemory};
use std::alloc::Global;
use window_decode::Ext;

impl<const N: usize> Banks<N> {
    /// Allocates banks for these cells. Their number is N*W, with W from 8 to 768.
    pub fn new(alloc: Global, cells: List<Ext>) -> Result<Banks<N>, NoMemory>
        requires lanes { IsLaneCount N }
        requires whole { N ∣ length cells }
        requires least { 8 ≤ length cells / N }
        requires most { length cells / N ≤ 768 }
        ensures { IfOk result (λ banks. banks ≡ cells) }
    {
        let width = cells.as_slice().len() / N;
        let mut banks = Banks::<N>::zeros(alloc, width)?;
        for r in 0..width {
            banks.set_row(r, row_of(cells.as_slice(), width, r));
        }
        Ok(banks)
    }

    /// Returns the cells of row `r`, which is below W, one of each bank.
    pub fn row(&self, r: usize) -> [Ext; N]
        requires { r < length self.now / N }
        ensures { result
            ≡ map (λ b. cell_at self.now (b * (length self.now / N) + r)) (range_with_len 0 N) }
    {
        let values = &self.values[r];
        let sums = &self.sums[r];
        let mut row = [Ext::ZERO; N];
        for b in 0..N {
            row[b] = lane_cell(values, sums, b);
        }
        row
    }

    /// Replaces the cells of row `r`, which is below W, and no others.
    pub fn set_row(&mut self, r: usize, row: [Ext; N])
        requires { r < length self.old / N }
        ensures long { length self.new ≡ length self.old }
        ensures row { (b : ℕ) → b < N
            → cell_at self.new (b * (length self.old / N) + r) ≡ cell_at row.entry b }
        ensures others { (i : ℕ) → i % (length self.old / N) ≢ r
            → cell_at self.new i ≡ cell_at self.old i }
    {
        split(&row, &mut self.values[r], &mut self.sums[r]);
    }

    /// Returns the cell of place `n`, which is below N*W.
    pub fn at(&self, n: usize) -> Ext
        requires { n < length self.now }
        ensures { result ≡ cell_at self.now n }
    {
        let width = self.values.len();
        let values = &self.values[n % width];
        let sums = &self.sums[n % width];
        lane_cell(values, sums, n / width)
    }
}

/// Returns row `r` of cells by place, of which each bank has `width`.
fn row_of<const N: usize>(cells: &[Ext], width: usize, r: usize) -> [Ext; N]
    requires long { N * width ≤ length cells.now }
    requires row { r < width }
    ensures { (b : ℕ) → b < N → cell_at result b ≡ cell_at cells.now (b * width + r) }
{
    let mut row = [Ext::ZERO; N];
    for b in 0..N {
        row[b] = cells[b * width + r];
    }
    row
}
