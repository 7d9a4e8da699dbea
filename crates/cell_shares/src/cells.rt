//! Cells in one buffer, which are split into shares and joined again.
ghost use Rattle.std.specs.Prelude.{◌≡◌, ◌≢◌, ℕ, ◌+◌, ◌-◌, ◌*◌, ◌/◌, ◌^◌, ◌<◌, ◌≤◌, []};
ghost use Rattle.std.specs.Prelude.{map, length, slice_index_or, vec_capacity, OnOk, IfOk};
ghost use Prim.Native.Nat.{◌∣◌};
ghost use Rattle.std.specs.List.{range_with_len};
ghost use Rattle.core.specs.Mem.{type_size};
ghost use Rattle.core.specs.Mem.Slots.{slots_items, slots_ptr, slots_len, IsFull};
ghost use Rattle.cell_shares.specs.Deal.{deal};
ghost use Rattle.cell_shares.specs.Orders.{IsOrderOf};
ghost use Rattle.cell_shares.specs.Parts.{places};
ghost use Rattle.cell_shares.specs.Rights.{IsRightTo};

use crate::order::Order;
use crate::part::Part;
use crate::right::FreeRight;
use crate::share::{Share, Split};
use core::slots::{Slots, release, reserve};
use lte_bits::{List, NoMemory};
use std::alloc::Global;

/// K values in M banks of W = K/M: cell n is in bank n / W, row n mod W.
pub struct Cells<T: Copy> {
    pub(crate) part: Part<T>,
    pub(crate) right: FreeRight<T>,
    pub(crate) heap: Global,
    pub(crate) room: Vec<Share<T>>,
    pub(crate) count: usize,
    pub(crate) windows: usize,
    pub(crate) width: usize,
    pub ghost numbered: { places part.cells ≡ range_with_len 0 count },
    pub ghost counted: { count ≡ part.count },
    pub ghost whole: { count ≡ windows * width },
    pub ghost some_cell: { 0 < count },
    pub ghost small: { count < 2 ^ 64 },
    pub ghost some_window: { 1 ≤ windows },
    pub ghost frees: { IsRightTo part.ptr count heap right },
    pub ghost empty: { room.items ≡ [] },
    pub ghost has_room: { windows ≤ vec_capacity room },
}

/// Writes a value into each place of an empty row.
fn fill<T: Copy>(row: &mut Slots<T>, values: &[T])
    requires { slots_len row.old ≡ length values.now }
    ensures full { IsFull row.new }
    ensures items { slots_items row.new ≡ values.now }
    ensures start { slots_ptr row.new ≡ slots_ptr row.old }
    ensures length { slots_len row.new ≡ slots_len row.old }
{
    for n in 0..values.len() {
        row.put(n, values[n]);
    }
}

impl<T: Copy> Cells<T> {
    ghost use Rattle.cell_shares.specs.Shares.{name_of, cell_values, share_values, AreAllOf};

    /// Returns cells with these values, for `windows` shares: 1 to 64, a divisor of the number of values,
    /// which isn't 0. Where memory runs out, the values are dropped.
    pub fn new(alloc: Global, values: List<T>, windows: usize) -> Result<Cells<T>, NoMemory>
        requires some { values ≢ [] }
        requires least { 1 ≤ windows }
        requires most { windows ≤ 64 }
        requires divides { windows ∣ length values }
        ensures values { IfOk result (λ cells. cell_values cells ≡ values) }
        ensures count { IfOk result (λ cells. (name_of cells).count ≡ length values) }
        ensures windows { IfOk result (λ cells. (name_of cells).windows ≡ windows) }
    {
        let values = values.into_vec();
        let Ok((mut row, lease)) = (unsafe { reserve(&alloc, values.as_slice()) }) else {
            return Err(NoMemory);
        };
        let Ok(room) = Vec::with_capacity(alloc, windows) else {
            release(&alloc, row, lease);
            return Err(NoMemory);
        };
        fill(&mut row, values.as_slice());
        let count = values.len();
        Ok(Cells {
            part: Part::of(row),
            right: FreeRight::new(lease),
            heap: alloc,
            room,
            count,
            windows,
            width: count / windows,
        })
    }

    /// Returns the value of cell `n`, which is below K.
    #[tactic(auto, using(crate::proofs::Changed::cell_read))]
    pub fn get(&self, n: usize) -> T
        requires { n < length (cell_values self.now) }
        ensures { result ≡ slice_index_or (cell_values self.now) n result }
    {
        *self.part.get(n, n)
    }

    /// Two cells that exist at once have different names if `T` has a size: each owns its buffer.
    pub fn tell_apart(&mut self, other: &mut Cells<T>)
        ensures kept { (self.new ≡ self.old) × (other.new ≡ other.old) }
        ensures names { 0 < type_size T.row → name_of self.old ≢ name_of other.old }
    {
        self.part.tell_apart(&mut other.part);
    }

    /// Returns the M shares of an order, in order of their numbers. An interleaved order has size K.
    pub fn split(self, order: Order) -> Vec<Share<T>>
        requires order { IsOrderOf (name_of self).count order }
        ensures shares { AreAllOf (name_of self) order result.items }
        ensures values { map share_values result.items
            ≡ deal order (name_of self).windows (cell_values self) }
    {
        let Cells {
            part,
            right,
            heap,
            room,
            count,
            windows,
            width,
        } = self;
        let split = Split {
            order,
            count,
            windows,
            width,
            heap,
        };
        let mut shares = room;
        let mut right = Some(right);
        let mut rest = part.arrange(&order);
        for number in 0..windows - 1 {
            let (part, others) = rest.cut(width);
            shares.push_reserved(Share::new(part, right.take(), split, number));
            rest = others;
        }
        shares.push_reserved(Share::new(rest, right, split, windows - 1));
        shares
    }
}

impl<T: Copy> Drop for Cells<T> {
    fn drop(self) {
        let Cells {
            part,
            right,
            heap,
            room,
            count,
            windows: _,
            width: _,
        } = self;
        room.destroy_empty();
        release(&heap, part.into_row(count), right.into_lease());
    }
}
