//! A share of the cells of a buffer.
ghost use Rattle.std.specs.Prelude.{◌≡◌, ℕ, ◌+◌, ◌*◌, ◌^◌, ◌<◌, ◌≤◌, length, slice_index_or, slice_set};
ghost use Rattle.cell_shares.specs.Deal.{share_places};
ghost use Rattle.cell_shares.specs.Orders.{place_in, IsOrderOf};
ghost use Rattle.cell_shares.specs.Parts.{places};
ghost use Rattle.cell_shares.specs.Rights.{HoldsRight};

use crate::order::Order;
use crate::part::Part;
use crate::right::FreeRight;
use std::alloc::Global;

/// How a buffer of `count` cells is split: into `windows` shares of one width, in an order.
#[derive(Clone, Copy)]
pub(crate) struct Split {
    pub(crate) order: Order,
    pub(crate) count: usize,
    pub(crate) windows: usize,
    pub(crate) width: usize,
    pub(crate) heap: Global,
    pub ghost whole: { count ≡ windows * width },
    pub ghost some_cell: { 0 < count },
    pub ghost small: { count < 2 ^ 64 },
    pub ghost fits: { IsOrderOf count order },
}

/// One of the M shares of some cells: the cells at the places `order(t W + j)` for j below the width W, where
/// t is the share's number. No two shares have a cell in common.
///
/// It can't be dropped, only given back by [`join`](crate::join).
pub struct Share<T: Copy> {
    pub(crate) part: Part<T>,
    pub(crate) right: Option<FreeRight<T>>,
    pub(crate) split: Split,
    pub(crate) number: usize,
    pub(crate) first: usize,
    pub ghost dealt: { places part.cells ≡ share_places split.order split.width number },
    pub ghost counted: { split.count ≡ part.count },
    pub ghost begins: { first ≡ number * split.width },
    pub ghost numbered: { number < split.windows },
    pub ghost frees: { HoldsRight right part.ptr split.count split.heap number },
}

impl<T: Copy> Share<T> {
    ghost use Rattle.cell_shares.specs.Shares.{share_name, share_order, share_number};
    ghost use Rattle.cell_shares.specs.Shares.{share_values, share_place};

    /// Returns the share of a number, which has these cells, and the right to free the buffer if it is the
    /// first.
    pub(crate) fn new(
        part: Part<T>,
        right: Option<FreeRight<T>>,
        split: Split,
        number: usize,
    ) -> Share<T>
        requires dealt { places part.cells ≡ share_places split.order split.width number }
        requires counted { split.count ≡ part.count }
        requires numbered { number < split.windows }
        requires frees { HoldsRight right part.ptr split.count split.heap number }
        ensures { (result.part ≡ part) × (result.right ≡ right) × (result.split ≡ split)
            × (result.number ≡ number) }
    {
        Share {
            part,
            right,
            split,
            number,
            first: number * split.width,
        }
    }

    /// Returns the value of cell `j`, which is below the width. In an interleaved order it costs a division.
    #[tactic(auto, using(crate::proofs::Positions::place_is))]
    pub fn get(&self, j: usize) -> T
        requires { j < length (share_values self.now) }
        ensures { result ≡ slice_index_or (share_values self.now) j result }
    {
        let place = self.split.order.place(self.split.count, self.first + j);
        self.get_at(j, place)
    }

    /// Returns the value of cell `j`, which is below the width, for a caller that has the cell's place
    /// `order(t W + j)`, as from a table or by additions. It needs no division.
    #[tactic(auto, using(crate::proofs::Positions::at_place, crate::proofs::Changed::cell_read))]
    pub fn get_at(&self, j: usize, place: usize) -> T
        requires cell { j < length (share_values self.now) }
        requires place { place ≡ share_place self.now j }
        ensures { result ≡ slice_index_or (share_values self.now) j result }
    {
        *self.part.get(j, place)
    }

    /// Writes `v` into cell `j`, which is below the width. In an interleaved order it costs a division.
    #[tactic(auto, using(crate::proofs::Positions::place_is))]
    pub fn set(&mut self, j: usize, v: T)
        requires { j < length (share_values self.old) }
        ensures values { share_values self.new ≡ slice_set (share_values self.old) j v }
        ensures name { share_name self.new ≡ share_name self.old }
        ensures order { share_order self.new ≡ share_order self.old }
        ensures number { share_number self.new ≡ share_number self.old }
    {
        let place = self.split.order.place(self.split.count, self.first + j);
        self.set_at(j, place, v);
    }

    /// Writes `v` into cell `j`, which is below the width, for a caller that has the cell's place
    /// `order(t W + j)`. It needs no division.
    #[tactic(auto, using(crate::proofs::Positions::at_place, crate::proofs::Changed::changed_values))]
    pub fn set_at(&mut self, j: usize, place: usize, v: T)
        requires cell { j < length (share_values self.old) }
        requires place { place ≡ share_place self.old j }
        ensures values { share_values self.new ≡ slice_set (share_values self.old) j v }
        ensures name { share_name self.new ≡ share_name self.old }
        ensures order { share_order self.new ≡ share_order self.old }
        ensures number { share_number self.new ≡ share_number self.old }
    {
        self.part.set(j, place, v);
    }
}
