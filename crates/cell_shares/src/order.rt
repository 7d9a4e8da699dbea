//! The orders in which shares take the cells of a buffer.
ghost use Rattle.std.specs.Prelude.{◌≡◌, ℕ, ◌<◌, ◌≤◌};

use qpp_table::Interleaver;
use qpp_table::interleaver::Qpp;

/// An order of places: that of the places themselves, or that of an interleaver of as many places.
#[derive(Clone, Copy, Debug, PartialEq, Eq)]
pub enum Order {
    /// Position i is at place i.
    Natural,
    /// Position i is at place Pi(i) of the internal interleaver (36.212 5.1.3.2.3).
    Interleaved(Qpp),
}

impl Order {
    ghost use Rattle.cell_shares.specs.Orders.{place_in, IsOrderOf};

    /// Returns the place of position `i`, which is below `size`; an interleaver has `size` places. It divides
    /// once where the order is interleaved.
    pub fn place(&self, size: usize, i: usize) -> usize
        requires order { IsOrderOf size self.now }
        requires position { i < size }
        ensures place { result ≡ place_in self.now i }
        ensures below { result < size }
    {
        match self {
            Order::Natural => i,
            Order::Interleaved(q) => q.at(i),
        }
    }
}
