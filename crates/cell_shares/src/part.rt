//! Some cells of one buffer, owned through a raw pointer.
ghost use Rattle.std.specs.Prelude.{◌≡◌, ◌≢◌, ℕ, ◌<◌, ◌≤◌, ◌++◌, List, length, take, drop};
ghost use Rattle.std.specs.Coded.{coded×, coded_ℕ, coded_list};
ghost use Rattle.std.specs.List.{range_with_len};
ghost use Rattle.core.specs.Mem.{type_size};
ghost use Rattle.core.specs.Mem.Slots.{slots_items, slots_ptr, slots_len, IsFull};
ghost use Rattle.cell_shares.specs.Orders.{order_places};
ghost use Rattle.cell_shares.specs.Ownership.{part_owns, part_lent};
ghost use Rattle.cell_shares.specs.Parts.{numbered, places, IsCell, changed, Shuffled};

use crate::order::Order;
use core::slots::Slots;
use std::marker::Model;

/// Some cells of the buffer of `count` places at `ptr`: values, each with its place in the buffer.
///
/// It owns these cells alone, so that two parts have no cell in common.
pub(crate) struct Part<T> {
    ptr: *mut T,
    ghost count: { ℕ },
    ghost cells: { List (ℕ × T) } by { coded_list (coded× coded_ℕ T.code) },
}

impl<T> Model for Part<T> {
    ghost also_owns = { λ p. part_owns T.row p.ptr p.count p.cells };

    ghost also_shares = { λ p _ κ. part_lent T.row p.ptr p.count p.cells κ };
}

impl<T> Part<T> {
    ghost use Rattle.cell_shares.specs.Buffers.{IsPartOf, IsArranged};

    /// Returns all places of a row that has a value in each.
    pub(crate) fn of(row: Slots<T>) -> Part<T>
        requires { IsFull row }
        ensures { IsPartOf (slots_ptr row) (slots_len row) (numbered 0 (slots_items row)) result }
    {
        let parts = unsafe { row.into_raw_parts() };
        Part { ptr: parts.0 }
    }

    /// Returns the row of all `count` places.
    pub(crate) fn into_row(self, count: usize) -> Slots<T>
        requires { (count ≡ self.count) × (places self.cells ≡ range_with_len 0 count) }
        ensures { (slots_ptr result ≡ self.ptr) × (slots_len result ≡ count) }
    {
        let Part { ptr } = self;
        unsafe { Slots::from_raw_parts(ptr, count) }
    }

    /// Returns the same cells in another order: cell i is the one at the order's i-th place.
    pub(crate) fn arrange(self, _order: &Order) -> Part<T>
        requires { Shuffled (places self.cells) (order_places _order.now self.count) }
        ensures { IsArranged _order.now self result }
    {
        let Part { ptr } = self;
        Part { ptr }
    }

    /// Returns the first cells, `_width` of them, and the others.
    pub(crate) fn cut(self, _width: usize) -> (Part<T>, Part<T>)
        ensures { IsPartOf self.ptr self.count (take _width self.cells) result.0
            × IsPartOf self.ptr self.count (drop _width self.cells) result.1 }
    {
        let Part { ptr } = self;
        let first = Part { ptr };
        let others = Part { ptr };
        (first, others)
    }

    /// Returns the cells of both parts, those of `self` first.
    pub(crate) fn glue(self, other: Part<T>) -> Part<T>
        requires { (other.ptr ≡ self.ptr) × (other.count ≡ self.count) }
        ensures { IsPartOf self.ptr self.count (self.cells ++ other.cells) result }
    {
        let Part { ptr } = self;
        let Part { ptr: _ } = other;
        Part { ptr }
    }

    /// Returns the value of cell `_j`, which is at `place`.
    pub(crate) fn get(&self, _j: usize, place: usize) -> &T
        requires { (place < self.now.count) × ((x : T) × IsCell self.now.cells _j place x) }
        ensures { IsCell self.now.cells _j place result.now }
    {
        unsafe { &*self.ptr.add(place) }
    }

    /// Writes cell `_j`, which is at `place`. The value that it had is forgotten.
    pub(crate) fn set(&mut self, _j: usize, place: usize, x: T)
        requires { (place < self.old.count) × ((y : T) × IsCell self.old.cells _j place y) }
        ensures { IsPartOf self.old.ptr self.old.count (changed self.old.cells _j x) self.new }
    {
        unsafe { self.ptr.add(place).write(x) }
    }

    /// Two parts that each have the first place of their buffer, in two buffers if `T` has a size.
    pub(crate) fn tell_apart(&mut self, _other: &mut Part<T>)
        requires { ((x : T) × IsCell self.old.cells 0 0 x) × ((y : T) × IsCell _other.old.cells 0 0 y) }
        ensures { (self.new ≡ self.old) × (_other.new ≡ _other.old)
            × (0 < type_size T.row → self.old.ptr ≢ _other.old.ptr) }
    {}
}

unsafe impl<T: Send> Send for Part<T> {}
