//! Reading a unit of a stream: bytes that are read as a whole before any of them is examined.
ghost use Rattle.std.specs.Prelude.{◌≡◌, ◌≤◌, ◌<◌, ◌+◌, ◌^◌, length, slice_index, IfErr};
ghost use Rattle.edge_io.specs.Edge.{TakesBytes};
ghost use Rattle.coded_stream.specs.Units.{TakesUnit, IsCause};
ghost use Rattle.coded_stream.specs.Header.{word, half_word};

use crate::cause;
use crate::stop::StreamStop;
use edge_io::{ReadStop, Source, read_exactly};

/// Reads a unit that begins at a place of the stream. An input that ends in it is refused at its end.
pub fn read_unit<S: Source>(source: &mut S, unit: &mut [u8], place: u64) -> Result<(), StreamStop>
    requires { place + length unit.old < 2 ^ 64 }
    ensures bytes { TakesUnit place (S.left source.old) (S.left source.new) unit.new result }
    ensures moved { TakesBytes (S.left source.old) (S.left source.new) }
    ensures later { S.faults source.old ≤ S.faults source.new }
    ensures cause { IfErr result (IsCause (S.faults source.old) (S.faults source.new)) }
{
    match read_exactly(source, unit) {
        Ok(()) => Ok(()),
        Err(ReadStop::Ended { got }) => Err(StreamStop::bad(cause::TRUNCATED, place + got as u64)),
        Err(ReadStop::Fault) => Err(StreamStop::Fault),
    }
}

/// Returns the number of four bytes of a unit.
#[tactic(auto, unfolding(crate::specs::Header::word))]
pub fn word(unit: &[u8], at: usize) -> u32
    requires { at + 4 ≤ length unit.now }
    ensures { result ≡ word unit.now at }
{
    u32::from_be_bytes([unit[at], unit[at + 1], unit[at + 2], unit[at + 3]])
}

/// Returns the number of two bytes of a unit.
#[tactic(auto, unfolding(crate::specs::Header::half_word))]
pub fn half_word(unit: &[u8], at: usize) -> u16
    requires { at + 2 ≤ length unit.now }
    ensures { result ≡ half_word unit.now at }
{
    u16::from_be_bytes([unit[at], unit[at + 1]])
}
