//! Reading one transmission of a block.
ghost use Rattle.std.specs.Prelude.{◌≡◌, ◌≤◌, ◌<◌, ◌+◌, ◌^◌, length, IfErr};
ghost use Rattle.edge_io.specs.Edge.{TakesBytes};
ghost use Rattle.coded_stream.specs.Blocks.{transmission_size, has_bad_bit, spare_bits};
ghost use Rattle.coded_stream.specs.Takes.{TakesTransmission};
ghost use Rattle.coded_stream.specs.Units.{IsCause};

use crate::cause;
use crate::kind::Kind;
use crate::stop::StreamStop;
use crate::unit::read_unit;
use edge_io::Source;

/// Returns the bytes of a transmission of `g` bits.
pub fn transmission_size(kind: Kind, g: usize) -> usize
    ensures { result ≡ transmission_size kind g }
{
    match kind {
        Kind::Hard => g.div_ceil(8),
        Kind::Soft => g,
    }
}

/// Returns the unused low bits of the last byte of `g` bits.
fn spare_bits(g: usize) -> u32
    requires { g ≤ 1000000 }
    ensures { result ≡ spare_bits g }
{
    (8 * g.div_ceil(8) - g) as u32
}

/// Returns whether an unused low bit of a transmission's last byte is 1.
fn has_bad_bit(kind: Kind, g: usize, bytes: &[u8]) -> bool
    requires some { 1 ≤ length bytes.now }
    requires few { g ≤ 1000000 }
    ensures { result ≡ has_bad_bit kind g bytes.now }
{
    match kind {
        Kind::Hard => bytes[bytes.len() - 1] % (1 << spare_bits(g)) != 0,
        Kind::Soft => false,
    }
}

/// Reads a transmission of `g` bits that begins at a place of the stream.
pub fn read_transmission<S: Source>(
    source: &mut S,
    kind: Kind,
    g: usize,
    bytes: &mut [u8],
    place: u64,
) -> Result<(), StreamStop>
    requires some { 1 ≤ g }
    requires few { g ≤ 1000000 }
    requires size { length bytes.old ≡ transmission_size kind g }
    requires place { place + length bytes.old < 2 ^ 64 }
    ensures bytes { TakesTransmission kind g place (S.left source.old) (S.left source.new) bytes.new result }
    ensures moved { TakesBytes (S.left source.old) (S.left source.new) }
    ensures later { S.faults source.old ≤ S.faults source.new }
    ensures cause { IfErr result (IsCause (S.faults source.old) (S.faults source.new)) }
{
    read_unit(source, bytes, place)?;
    if has_bad_bit(kind, g, bytes) {
        return Err(StreamStop::bad(cause::BAD_BIT, place + (bytes.len() as u64 - 1)));
    }
    Ok(())
}
