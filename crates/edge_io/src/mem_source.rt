//! A source over bytes in memory.
ghost use Rattle.std.specs.Prelude.{◌≡◌, ◌≤◌, ◌<◌, ◌+◌, ◌↔◌, min, length, Some, IfOk, OnErr, IsErr, Contains};
ghost use Rattle.edge_io.specs.Edge.{HasCause, ReadTakes};
ghost use Rattle.edge_io.specs.Feed.{Feed, after_read, after_fault};

use crate::remaining::Remaining;
use crate::{Source, SourceFault};
use lte_bits::List;
use std::marker::Model;

/// A source over bytes in memory, with short reads, and failures of the reads with given numbers.
#[derive(Debug, Drop)]
pub struct MemSource {
    rest: Remaining,
    piece: usize,
    failing: List<u64>,
    calls: u64,
    faults: u64,
}

impl Model for MemSource {
    ghost Value = { Feed };

    ghost view = { λ s. record {
      left = s.rest;
      piece = s.piece;
      failing = s.failing;
      calls = s.calls;
      faults = s.faults;
    } };

    ghost invariant = { λ s. 1 ≤ s.piece };
}

impl MemSource {
    /// Returns a source of these bytes. A call gives the least of `piece`, the buffer's length and what is
    /// left. Calls are numbered from 0, and those whose number is in `failing` fail.
    pub fn new(bytes: List<u8>, piece: usize, failing: List<u64>) -> Self
        requires { 1 ≤ piece }
        ensures { result ≡ record {
          left = bytes;
          piece = piece;
          failing = failing;
          calls = 0;
          faults = 0;
        } }
    {
        MemSource {
            rest: Remaining::new(bytes),
            piece,
            failing,
            calls: 0,
            faults: 0,
        }
    }

    /// Returns the bytes that are left.
    pub fn left(&self) -> &[u8]
        ensures { result.now ≡ self.now.left }
    {
        self.rest.as_slice()
    }
}

impl Source for MemSource {
    ghost left = { λ s. Some s.left };

    ghost faults = { λ s. s.faults };

    ghost calls = { λ s. s.calls };

    fn read(&mut self, buf: &mut [u8]) -> Result<usize, SourceFault>
        ensures bytes { ReadTakes (Some self.old.left) (Some self.new.left) result buf.new }
        ensures cause { HasCause self.old.faults self.new.faults result }

        ensures fails { IsErr result ↔ Contains self.old.failing self.old.calls }
        ensures count { IfOk result (λ n.
            n ≡ min (min self.old.piece (length buf.old)) (length self.old.left)) }
        ensures ok { IfOk result (λ n. self.new ≡ after_read self.old n) }
        ensures err { OnErr result (self.new ≡ after_fault self.old) }
    {
        let call = self.calls;
        self.calls = call.saturating_add(1);
        if self.failing.as_slice().contains(&call) {
            self.faults = self.faults.saturating_add(1);
            return Err(SourceFault);
        }
        Ok(self.rest.give(buf, self.piece))
    }
}
