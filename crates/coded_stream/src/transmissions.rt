//! Reading the transmissions of a block.
ghost use Rattle.std.specs.Prelude.{◌≡◌, ◌≤◌, ◌<◌, ◌^◌, ℕ, List, Some, length, slice_get, OnOk, IfErr};
ghost use Rattle.edge_io.specs.Edge.{TakesBytes};
ghost use Rattle.coded_stream.specs.Blocks.{lengths, block_size, AreTransmissions};
ghost use Rattle.coded_stream.specs.Body.{block_step};
ghost use Rattle.coded_stream.specs.Shown.{header_of};
ghost use Rattle.coded_stream.specs.Takes.{TakesTransmissions};
ghost use Rattle.coded_stream.specs.Units.{IsCause};

use crate::header::Header;
use crate::stop::StreamStop;
use crate::transmission::{read_transmission, transmission_size};
use edge_io::Source;

/// Returns G of a transmission.
#[tactic(auto, using(crate::proofs::Sizes::match_bounded, crate::proofs::Turns::length_of))]
fn length_at(header: &Header, turn: usize) -> usize
    requires { turn < length header.now.sends }
    ensures value { slice_get (lengths (header_of header.now)) turn ≡ Some result }
    ensures some { 1 ≤ result }
    ensures few { result ≤ 1000000 }
{
    header.sends.at(turn).0.g()
}

/// Returns the bytes of the transmissions of a block, at most 8,000,000.
pub fn block_size(header: &Header) -> usize
    ensures value { result ≡ block_size header.now.kind (lengths (header_of header.now)) }
    ensures few { result ≤ 8000000 }
{
    let mut total = 0usize;
    for turn in 0..header.sends.len() {
        total += transmission_size(header.kind, length_at(header, turn));
    }
    total
}

/// Reads the transmissions of a block that begins at a place of the stream, one after the other.
pub fn read_transmissions<S: Source>(
    source: &mut S,
    header: &Header,
    start: u64,
    into: &mut [u8],
) -> Result<(), StreamStop>
    requires place { start < 2 ^ 60 }
    requires size { length into.old ≡ block_size header.now.kind (lengths (header_of header.now)) }
    ensures told { (payload : ℕ) (input : List ℕ) → S.left source.old ≡ Some input →
        TakesTransmissions (block_step (header_of header.now) start payload input) payload into.new
        (S.left source.old) (S.left source.new) result }
    ensures sent { OnOk result
        (AreTransmissions header.now.kind (lengths (header_of header.now)) into.new) }
    ensures moved { TakesBytes (S.left source.old) (S.left source.new) }
    ensures later { S.faults source.old ≤ S.faults source.new }
    ensures cause { IfErr result (IsCause (S.faults source.old) (S.faults source.new)) }
{
    let mut read = 0usize;
    for turn in 0..header.sends.len() {
        let g = length_at(header, turn);
        let size = transmission_size(header.kind, g);
        let place = start + 4 + read as u64;
        read_transmission(source, header.kind, g, &mut into[read..read + size], place)?;
        read += size;
    }
    Ok(())
}
