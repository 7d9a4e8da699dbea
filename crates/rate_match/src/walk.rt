//! A cyclic walk over the bits of the circular buffer (36.212 5.1.4.1.2).
ghost use Rattle.std.specs.Prelude.{◌≡◌, ◌<◌};
ghost use Rattle.rate_match.specs.Cursor.{cursor_at};

use crate::cursor::Cursor;
use crate::rings::Ring;
use crate::runs::Run;

/// A cyclic walk over the circular buffer in the order of bit selection (36.212, 5.1.4.1.2): the next place.
#[derive(Clone, Copy)]
pub struct Walk {
    pub ring: Ring,
    cursor: Cursor,
    pub ghost within: { cursor.n < ring.size },
    pub ghost lawful: { cursor ≡ cursor_at ring.rows cursor.n },
}

impl Walk {
    ghost use Rattle.std.specs.Prelude.{ℕ, ◌+◌, ◌≤◌, ◌++◌};
    ghost use Rattle.model_sender.specs.Selection.{bits_from, holds_bit, repeated};
    ghost use Rattle.rate_match.specs.Runs.{IsRun, run_places};
    ghost use Rattle.rate_match.specs.Walk.{places_from};

    /// Returns a walk that begins at place `start`, counted cyclically.
    pub fn new(ring: Ring, start: usize) -> Walk
        ensures ring { result.ring ≡ ring }
        ensures places { (e : ℕ) → places_from result e
            ≡ repeated (bits_from (holds_bit ring.k ring.fill) start ring.size) e }
    {
        Walk {
            ring,
            cursor: Cursor::at(ring, start % ring.size),
        }
    }

    /// Returns the next bits, at most `most`, and advances past them.
    pub fn next_run(&mut self, most: usize) -> Run
        requires { 0 < most }
        ensures ring { self.new.ring ≡ self.old.ring }
        ensures run { IsRun self.old.ring.k self.old.ring.fill self.old.ring.size result }
        ensures most { result.count ≤ most }
        ensures places { (e : ℕ) → places_from self.old (result.count + e)
            ≡ run_places result ++ places_from self.new e }
    {
        let ring = self.ring;
        let mut cursor = self.cursor;
        for _place in 0..ring.size {
            if let Some(run) = cursor.run(ring, most) {
                self.cursor = cursor.down(ring, run.count - 1).next(ring);
                return run;
            }
            cursor = cursor.next(ring);
        }
        unreachable!()
    }
}
