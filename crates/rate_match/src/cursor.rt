//! A cursor over the circular buffer, which moves from place to place by additions alone.
ghost use Rattle.std.specs.Prelude.{◌≡◌, ◌+◌, ◌-◌, ◌*◌, ◌/◌, ◌%◌, ◌<◌, ◌≤◌, slice_index, IfSome, IsNone, None};
ghost use Rattle.model_sender.specs.CircularBuffer.{column_order, padded, spot};
ghost use Rattle.rate_match.specs.Cursor.{IsInColumn, cursor_at, order_of, rows_down};
ghost use Rattle.rate_match.specs.Runs.{IsRun};

use crate::rings::Ring;
use crate::runs::Run;
use model_sender::Spot;

/// P, the order in which the 32 columns are read.
const COLUMN_ORDER: [usize; 32] = [
    0, 16, 8, 24, 4, 20, 12, 28, 2, 18, 10, 26, 6, 22, 14, 30, 1, 17, 9, 25, 5, 21, 13, 29, 3, 19,
    11, 27, 7, 23, 15, 31,
];

/// Returns the column that is read in turn `i`, counted from 0.
fn column(i: usize) -> usize
    requires { i < 32 }
    ensures value { result ≡ slice_index column_order i }
    ensures small { result < 32 }
{
    COLUMN_ORDER[i]
}

/// Returns the bit at place `p` of stream `number` after its padding, where `nulls` of the stream are NULL.
fn padded_spot(ring: Ring, number: u8, nulls: usize, p: usize) -> Option<Spot>
    requires stream { number ≤ 2 }
    requires few { nulls ≤ 6144 }
    requires within { p < 32 * ring.rows }
    ensures spot { result ≡ padded (record { k = ring.k; number = number; nulls = nulls }) p }
    ensures inside { IfSome result (λ spot. (spot.stream ≤ 2) × (spot.index < ring.k + 4)) }
{
    let padding = 32 * ring.rows - (ring.k + 4);
    if p < padding + nulls {
        None
    } else {
        Some(Spot {
            stream: number,
            index: p - padding,
        })
    }
}

/// Place `n` of the buffer: its column, counted in the order of reading, and the
/// place in the stream by rows.
#[derive(Clone, Copy)]
pub struct Cursor {
    pub n: usize,
    pub column: usize,
    pub by_rows: usize,
}

impl Cursor {
    /// Returns place `n`.
    pub fn at(ring: Ring, n: usize) -> Cursor
        requires { n < ring.size }
        ensures { result ≡ cursor_at ring.rows n }
    {
        let first = 32 * ring.rows;
        let order = if n < first { n } else { (n - first) / 2 };
        let reading = order / ring.rows;
        Cursor {
            n,
            column: reading,
            by_rows: column(reading) + 32 * (order % ring.rows),
        }
    }

    /// Returns place `n`, where the reading of a stream begins.
    fn first(n: usize) -> Cursor
        ensures { result ≡ record { n = n; column = 0; by_rows = 0 } }
    {
        Cursor {
            n,
            column: 0,
            by_rows: 0,
        }
    }

    /// Returns place `n`, at which the stream is read one place further than here.
    fn further(self, ring: Ring, n: usize) -> Cursor
        requires lawful { self ≡ cursor_at ring.rows self.n }
        requires next { order_of ring.rows n ≡ order_of ring.rows self.n + 1 }
        requires within { order_of ring.rows n < 32 * ring.rows }
        ensures { result ≡ cursor_at ring.rows n }
    {
        let below = self.by_rows + 32;
        if below < 32 * ring.rows {
            return Cursor {
                n,
                column: self.column,
                by_rows: below,
            };
        }
        Cursor {
            n,
            column: self.column + 1,
            by_rows: column(self.column + 1),
        }
    }

    /// Returns the next place, cyclically.
    pub fn next(self, ring: Ring) -> Cursor
        requires within { self.n < ring.size }
        requires lawful { self ≡ cursor_at ring.rows self.n }
        ensures { result ≡ cursor_at ring.rows ((self.n + 1) % ring.size) }
    {
        let first = 32 * ring.rows;
        let n = self.n + 1;
        if n == ring.size {
            Cursor::first(0)
        } else if n == first {
            Cursor::first(n)
        } else if n > first && n % 2 == 1 {
            Cursor { n, ..self }
        } else {
            self.further(ring, n)
        }
    }

    /// Returns the bit here, if it isn't NULL.
    pub fn spot(self, ring: Ring) -> Option<Spot>
        requires within { self.n < ring.size }
        requires lawful { self ≡ cursor_at ring.rows self.n }
        ensures spot { result ≡ spot ring.k ring.fill self.n }
        ensures inside { IfSome result (λ spot. (spot.stream ≤ 2) × (spot.index < ring.k + 4)) }
    {
        let places = 32 * ring.rows;
        if self.n < places {
            padded_spot(ring, 0, ring.fill, self.by_rows)
        } else if self.n % 2 == 0 {
            padded_spot(ring, 1, ring.fill, self.by_rows)
        } else if self.by_rows + 1 == places {
            padded_spot(ring, 2, 0, 0)
        } else {
            padded_spot(ring, 2, 0, self.by_rows + 1)
        }
    }

    /// Returns a number of places from here on, at most `most`, that hold bits of one column and are in the
    /// ring. It may be 0 although a bit is here.
    fn column_left(self, ring: Ring, most: usize) -> usize
        requires within { self.n < ring.size }
        requires lawful { self ≡ cursor_at ring.rows self.n }
        ensures column { IsInColumn ring.rows ring.k ring.fill self result }
        ensures within { self.n + result ≤ ring.size }
        ensures most { result ≤ most }
    {
        let places = 32 * ring.rows;
        let padding = places - (ring.k + 4);
        if self.by_rows < padding + ring.fill {
            return 0;
        }
        let column = if self.n < places {
            (places - self.by_rows).div_ceil(32)
        } else {
            (2 * (places - 1 - self.by_rows).div_ceil(32)).saturating_sub(self.n % 2)
        };
        column.min(ring.size - self.n).min(most)
    }

    /// Returns the bits of this column from here on, `most` at most, if the one here isn't NULL.
    pub fn run(self, ring: Ring, most: usize) -> Option<Run>
        requires within { self.n < ring.size }
        requires lawful { self ≡ cursor_at ring.rows self.n }
        requires some { 0 < most }
        ensures none { IsNone result → spot ring.k ring.fill self.n ≡ None }
        ensures here { IfSome result (λ run. run.place ≡ self.n) }
        ensures run { IfSome result (IsRun ring.k ring.fill ring.size) }
        ensures most { IfSome result (λ run. run.count ≤ most) }
        ensures column { IfSome result (λ run.
            self.by_rows / 32 + rows_down ring.rows self (run.count - 1) < ring.rows) }
    {
        let first = self.spot(ring)?;
        Some(Run {
            place: self.n,
            first,
            count: self.column_left(ring, most).max(1),
        })
    }

    /// Returns by how many rows the place `i` further on is below this one in the column.
    fn rows_down(self, ring: Ring, i: usize) -> usize
        requires { i ≤ 18528 }
        ensures { result ≡ rows_down ring.rows self i }
    {
        if self.n < 32 * ring.rows {
            i
        } else {
            (self.n % 2 + i) / 2
        }
    }

    /// Returns the place `i` further on in the same column.
    pub fn down(self, ring: Ring, i: usize) -> Cursor
        requires within { self.n + i < ring.size }
        requires lawful { self ≡ cursor_at ring.rows self.n }
        requires column { self.by_rows / 32 + rows_down ring.rows self i < ring.rows }
        ensures { result ≡ cursor_at ring.rows (self.n + i) }
    {
        Cursor {
            n: self.n + i,
            column: self.column,
            by_rows: self.by_rows + 32 * self.rows_down(ring, i),
        }
    }
}
