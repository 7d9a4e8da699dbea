//! Reading a stream block by block.
ghost use Rattle.std.specs.Prelude.{◌≡◌, ◌≤◌, ℕ, List, Some, IfOk, true};
ghost use Rattle.edge_io.specs.Edge.{Rose, TakesBytes};
ghost use Rattle.coded_stream.specs.Opening.{opening};
ghost use Rattle.coded_stream.specs.Shown.{header_of};
ghost use Rattle.coded_stream.specs.Steps.{Begins, IsBegun, GoesOn, Advances, remaining};

use crate::block::read_block;
use crate::fields::{Fields, read_fields};
use crate::header::Header;
use crate::kind::{Kind, Want};
use crate::opening::{read_first, read_second};
use crate::stop::StreamStop;
use crate::transmissions::block_size;
use edge_io::Source;
use lte_bits::List;
use std::marker::Model;

/// The most blocks of a stream.
pub const MOST_BLOCKS: usize = 4096;

/// A stream whose header was read.
#[derive(Debug, Drop)]
pub struct StreamReader {
    header: Header,
    place: u64,
    blocks: usize,
    live: bool,
}

impl Model for StreamReader {
    ghost use Rattle.coded_stream.specs.Steps.{Reading};

    ghost Value = { Reading };

    ghost use Rattle.coded_stream.specs.Reached.{reading_of, IsWithin};

    ghost view = { reading_of };

    ghost invariant = { IsWithin };
}

impl StreamReader {
    /// Reads the header of a wanted stream, of either version. Allocates nothing, so never returns
    /// `NoMemory`. After `Bad` and `Fault` no byte past the unit being read was taken.
    pub fn begin<S: Source>(source: &mut S, want: Want) -> Result<StreamReader, StreamStop>
        // If the source's bytes are known: the header that they begin with, or where they are refused.
        ensures begins { (input : List ℕ) → S.left source.old ≡ Some input →
            Begins (opening want input) (S.left source.old) (S.left source.new) result }

        // Whether they are known or not.
        ensures accepted { IfOk result (IsBegun want) }
        ensures memory { result ≡ Err StreamStop.NoMemory → ⊥ }
        ensures moved { TakesBytes (S.left source.old) (S.left source.new) }
        ensures later { S.faults source.old ≤ S.faults source.new }
        ensures fault { result ≡ Err StreamStop.Fault → Rose (S.faults source.old) (S.faults source.new) }
    {
        let mut room = [0u8; 18];
        let version = read_first(source, &mut room)?;
        let unit = &room[..version.first_size()];
        let Fields { buffer, tb, count } = read_fields(version, unit, want)?;
        let sends = read_second(source, version, unit, buffer, count)?;
        Ok(StreamReader {
            header: Header {
                version,
                kind: Kind::of(unit[4]),
                tb,
                sends,
            },
            place: (version.first_size() + version.second_size(count)) as u64,
            blocks: 0,
            live: true,
        })
    }

    /// Returns the header that was read.
    pub fn header(&self) -> &Header
        ensures { header_of result.now ≡ self.now.header }
    {
        &self.header
    }

    /// Returns the number of bytes taken from the stream, while the reader is live.
    pub fn place(&self) -> u64
        ensures { result ≡ self.now.place }
    {
        self.place
    }

    /// Returns the number of blocks that `next_block` has returned.
    pub fn blocks(&self) -> usize
        ensures { result ≡ self.now.blocks }
    {
        self.blocks
    }

    /// Returns whether the stream may go on: until `next_block` returns `None`, `Bad` or `Fault`.
    pub fn is_live(&self) -> bool
        ensures { result ≡ self.now.live }
    {
        self.live
    }

    /// Reads the next block of a live reader. `Some(n)`: its payload has n bytes, and `into` holds the bytes
    /// of its transmissions, one after the other. `None`: the end word and the end of the input were read.
    /// `NoMemory` comes before anything is read, with nothing changed. After `None`, `Bad` or `Fault` the
    /// reader isn't live, and `into` may hold any bytes; after `Bad` and `Fault` no byte past the unit being
    /// read was taken.
    pub fn next_block<S: Source>(
        &mut self,
        source: &mut S,
        into: &mut List<u8>,
    ) -> Result<Option<usize>, StreamStop>
        requires { self.old.live ≡ true }

        // If the source's bytes are known: the rest of the stream begins with this.
        ensures goes_on { (input : List ℕ) → S.left source.old ≡ Some input →
            GoesOn (remaining self.old input) (remaining self.new) into.new
            (S.left source.old) (S.left source.new) result }

        // Whether they are known or not.
        ensures advances { Advances self.old self.new into.new result }
        ensures memory { result ≡ Err StreamStop.NoMemory →
            (source.new ≡ source.old) × (into.new ≡ into.old) }
        ensures moved { TakesBytes (S.left source.old) (S.left source.new) }
        ensures later { S.faults source.old ≤ S.faults source.new }
        ensures fault { result ≡ Err StreamStop.Fault → Rose (S.faults source.old) (S.faults source.new) }
    {
        let total = block_size(&self.header);
        if into.resize(total, 0).is_err() {
            return Err(StreamStop::NoMemory);
        }
        let more = MOST_BLOCKS - self.blocks;
        match read_block(source, &self.header, more, self.place, into.as_mut_slice()) {
            Ok(Some(payload)) => {
                self.place += 4 + total as u64;
                self.blocks += 1;
                Ok(Some(payload))
            }
            Ok(None) => {
                self.live = false;
                Ok(None)
            }
            Err(stop) => {
                self.live = false;
                Err(stop)
            }
        }
    }
}
