//! The soft values of a code block by rows.
ghost use Rattle.std.specs.Prelude.{◌≡◌, IfOk};
ghost use Rattle.window_rows.specs.Rows.{IsLaneCount};
ghost use Rattle.lane_windows.specs.Halves.{AreRowsOf};

use half_iteration::Views;
use lock_step::SoftRows;
use lte_bits::NoMemory;
use std::alloc::Global;
use window_rows::rows::lay_out;
use window_rows::zeros::zero_rows;

/// The systematic and the parity values that the halves of one order read: row j has in lane t those of
/// position j of window t.
#[derive(Drop)]
pub struct HalfRows<const N: usize> {
    pub systematic: Vec<[i16; N]>,
    pub parity: Vec<[i16; N]>,
}

impl<const N: usize> HalfRows<N> {
    /// Allocates the rows of half `h`, which has N windows.
    pub fn new(alloc: Global, views: &Views<'_>, h: usize) -> Result<HalfRows<N>, NoMemory>
        requires lanes { IsLaneCount N }
        requires windows { views.now.shape.windows ≡ N }
        ensures { IfOk result (λ rows. AreRowsOf N views.now.streams.now views.now.shape h
            rows.systematic.items rows.parity.items) }
    {
        let width = views.width();
        let mut systematic = zero_rows(alloc, width)?;
        lay_out(views.systematic(h), systematic.as_mut_slice());
        let mut parity = zero_rows(alloc, width)?;
        lay_out(views.parity(h), parity.as_mut_slice());
        Ok(HalfRows { systematic, parity })
    }

    /// Returns the rows as windows in lock step read them.
    pub fn as_rows(&self) -> SoftRows<'_, N>
        ensures systematic { result.systematic.now ≡ self.now.systematic.items }
        ensures parity { result.parity.now ≡ self.now.parity.items }
    {
        SoftRows {
            systematic: self.systematic.as_slice(),
            parity: self.parity.as_slice(),
        }
    }
}
