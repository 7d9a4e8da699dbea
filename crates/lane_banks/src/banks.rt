//! The cells of a code block in banks.
ghost use Rattle.std.specs.Prelude.{◌≡◌, ◌*◌, ◌/◌, ◌≤◌, IfOk, length, replicate};
ghost use Rattle.model_receiver.specs.Windows.{zero_cell};
ghost use Rattle.model_receiver.specs.Decoding.{decided_bits};
ghost use Rattle.window_rows.specs.Rows.{IsLaneCount};

use crate::bits::{clear, decide_bank};
use lte_bits::{Bit, NoMemory};
use std::alloc::Global;
use std::marker::Model;
use window_rows::zeros::zero_rows;

/// The cells of N windows of W places, by place. They are kept in N banks: row r has in bank b the cell of
/// place b*W + r. W is 8 to 768, and N is 8, 16 or 32.
#[derive(Drop)]
pub struct Banks<const N: usize> {
    pub values: Vec<[i16; N]>,
    pub sums: Vec<[i16; N]>,
}

impl<const N: usize> Model for Banks<N> {
    ghost use Rattle.std.specs.Prelude.{List as Items, length};
    ghost use Rattle.model_receiver.specs.Windows.{Extrinsic};

    ghost Value = { Items Extrinsic };

    ghost use Rattle.lane_banks.specs.Banks.{cells_by_place, AreBanks};

    ghost view = { λ b. cells_by_place N (length b.values.items) b.values.items b.sums.items };

    ghost invariant = { λ b. AreBanks N b.values.items b.sums.items };
}

impl<const N: usize> Banks<N> {
    /// Allocates banks of `width` rows whose cells are 0.
    pub fn zeros(alloc: Global, width: usize) -> Result<Banks<N>, NoMemory>
        requires lanes { IsLaneCount N }
        requires least { 8 ≤ width }
        requires most { width ≤ 768 }
        ensures { IfOk result (λ banks. banks ≡ replicate (N * width) zero_cell) }
    {
        let values = zero_rows(alloc, width)?;
        let sums = zero_rows(alloc, width)?;
        Ok(Banks { values, sums })
    }

    /// Returns the number W of rows.
    pub fn width(&self) -> usize
        ensures value { result ≡ length self.now / N }
        ensures whole { N * result ≡ length self.now }
        ensures lanes { IsLaneCount N }
        ensures least { 8 ≤ result }
        ensures most { result ≤ 768 }
    {
        self.values.len()
    }

    /// Writes the decided bits by place, with the first `fill` of them 0.
    pub fn decide(&self, fill: usize, bits: &mut [Bit])
        requires fill { fill ≤ length self.now }
        requires long { length bits.old ≡ length self.now }
        ensures { bits.new ≡ decided_bits fill self.now }
    {
        for b in 0..N {
            decide_bank(self.sums.as_slice(), b, bits);
        }
        clear(fill, bits);
    }
}
