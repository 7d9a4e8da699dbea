//! A sink that holds bytes in memory.
ghost use Rattle.std.specs.Prelude.{◌≡◌, ◌≤◌, ◌+◌, ◌↔◌, [], length, min, take, vec_len, vec_capacity, Some, IfOk, OnOk, OnErr, IsErr, IsTrue};
ghost use Rattle.edge_io.specs.Edge.{HasCause, WriteAdds};
ghost use Rattle.edge_io.specs.Store.{Store, Refuses, after_write, after_fault, after_reserve};

use crate::{Sink, SinkFault};
use lte_bits::{List, NoMemory};
use std::alloc::{AllocError, Global};
use std::marker::Model;

/// A sink of limited capacity in memory, with short writes, and failures of the writes with given numbers.
#[derive(Debug, Drop)]
pub struct MemSink {
    bytes: Vec<u8>,
    piece: usize,
    failing: List<u64>,
    room: usize,
    calls: u64,
    faults: u64,
}

impl Model for MemSink {
    ghost use Rattle.std.specs.Prelude.{◌≤◌, ◌+◌, vec_len, vec_capacity};
    ghost use Rattle.edge_io.specs.Store.{Store};

    ghost Value = { Store };

    ghost view = { λ s. record {
      bytes = s.bytes.items;
      piece = s.piece;
      failing = s.failing;
      room = s.room;
      calls = s.calls;
      faults = s.faults;
    } };

    ghost invariant = { λ s. (1 ≤ s.piece) × (vec_len s.bytes + s.room ≤ vec_capacity s.bytes) };
}

impl MemSink {
    /// Returns a sink that holds nothing and has no room. A write takes the least of `piece`, the length of
    /// what it is given and the room that is left. Writes are numbered from 0. Those whose number is in
    /// `failing` fail, and those that are given something with no room left.
    pub fn new(alloc: Global, piece: usize, failing: List<u64>) -> Self
        requires { 1 ≤ piece }
        ensures { result ≡ record {
          bytes = [];
          piece = piece;
          failing = failing;
          room = 0;
          calls = 0;
          faults = 0;
        } }
    {
        MemSink {
            bytes: Vec::new(alloc),
            piece,
            failing,
            room: 0,
            calls: 0,
            faults: 0,
        }
    }

    /// Makes room for `more` bytes. Where that fails, the sink is unchanged.
    pub fn reserve(&mut self, more: usize) -> Result<(), NoMemory>
        ensures ok { OnOk result (self.new ≡ after_reserve self.old more) }
        ensures err { OnErr result (self.new ≡ self.old) }
    {
        self.bytes.reserve(more)?;
        self.room = self.room.max(more);
        Ok(())
    }

    /// Returns the bytes that are held.
    pub fn bytes(&self) -> &[u8]
        ensures { result.now ≡ self.now.bytes }
    {
        self.bytes.as_slice()
    }

    /// Returns whether the next write is to fail.
    fn is_refused(&self, piece: &[u8]) -> bool
        ensures { IsTrue result ↔ Refuses self.now piece.now }
    {
        if self.failing.as_slice().contains(&self.calls) {
            return true;
        }
        self.room == 0 && !piece.is_empty()
    }
}

impl Sink for MemSink {
    ghost held = { λ s. Some s.bytes };

    ghost faults = { λ s. s.faults };

    fn write(&mut self, piece: &[u8]) -> Result<usize, SinkFault>
        ensures bytes { WriteAdds (Some self.old.bytes) (Some self.new.bytes) result piece.now }
        ensures cause { HasCause self.old.faults self.new.faults result }

        ensures fails { IsErr result ↔ Refuses self.old piece.now }
        ensures count { IfOk result (λ n.
            n ≡ min (min self.old.piece (length piece.now)) self.old.room) }
        ensures ok { IfOk result (λ n. self.new ≡ after_write self.old (take n piece.now)) }
        ensures err { OnErr result (self.new ≡ after_fault self.old) }
    {
        let is_refused = self.is_refused(piece);
        self.calls = self.calls.saturating_add(1);
        if is_refused {
            self.faults = self.faults.saturating_add(1);
            return Err(SinkFault);
        }
        let count = self.piece.min(piece.len()).min(self.room);
        self.room -= count;
        match self.bytes.extend_from_slice(&piece[..count]) {
            Ok(()) => Ok(count),
            Err(AllocError) => unreachable!(),
        }
    }
}
