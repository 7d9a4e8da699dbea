//! Reading the two units of a header.
ghost use Rattle.std.specs.Prelude.{◌≡◌, ◌≤◌, ℕ, List, Some, length, IfOk, IfErr};
ghost use Rattle.edge_io.specs.Edge.{TakesBytes};
ghost use Rattle.rate_match.specs.Matching.{limit_of};
ghost use Rattle.coded_stream.specs.Opening.{opening, version_of, first_size, limit_in, count_in};
ghost use Rattle.coded_stream.specs.Fields.{IsFirst};
ghost use Rattle.coded_stream.specs.Takes.{TakesFirst, TakesSecond, AreSentBy};
ghost use Rattle.coded_stream.specs.Units.{IsCause};
ghost use Rattle.coded_stream.specs.declared.kind.Want.{Want};

use crate::header_transmissions::read_header_transmissions;
use crate::stop::StreamStop;
use crate::unit::{read_unit, word};
use crate::version::Version;
use edge_io::Source;
use rate_match::{Buffer, Sends};

/// Returns the version of a stream that begins with these bytes.
fn version_of(unit: &[u8]) -> Version
    requires { 4 ≤ length unit.now }
    ensures { result ≡ version_of unit.now }
{
    if word(unit, 0) == Version::Two.magic() {
        Version::Two
    } else {
        Version::One
    }
}

/// Reads the first unit of a header into the beginning of `unit`. Its first four bytes determine its version,
/// and so its length.
pub fn read_first<S: Source>(source: &mut S, unit: &mut [u8]) -> Result<Version, StreamStop>
    requires { length unit.old ≡ 18 }
    ensures told { (want : Want) (input : List ℕ) → S.left source.old ≡ Some input →
        TakesFirst (opening want input) (S.left source.old) (S.left source.new) unit.new result }
    ensures moved { TakesBytes (S.left source.old) (S.left source.new) }
    ensures later { S.faults source.old ≤ S.faults source.new }
    ensures cause { IfErr result (IsCause (S.faults source.old) (S.faults source.new)) }
{
    read_unit(source, &mut unit[..4], 0)?;
    let version = version_of(unit);
    read_unit(source, &mut unit[4..version.first_size()], 4)?;
    Ok(version)
}

/// Reads the second unit of a header, of `count` transmissions, after a first unit with this
/// buffer.
pub fn read_second<S: Source>(
    source: &mut S,
    version: Version,
    unit: &[u8],
    buffer: Buffer,
    count: usize,
) -> Result<Sends, StreamStop>
    requires whole { length unit.now ≡ first_size version }
    requires buffer { limit_of buffer ≡ limit_in version unit.now }
    requires matching { IsFirst version unit.now }
    requires count { count ≡ count_in version unit.now }
    requires some { 1 ≤ count }
    requires few { count ≤ 8 }
    ensures told { (input : List ℕ) → S.left source.old ≡ Some input →
        TakesSecond version unit.now input (S.left source.old) (S.left source.new) result }
    ensures sent { IfOk result (AreSentBy version unit.now) }
    ensures moved { TakesBytes (S.left source.old) (S.left source.new) }
    ensures later { S.faults source.old ≤ S.faults source.new }
    ensures cause { IfErr result (IsCause (S.faults source.old) (S.faults source.new)) }
{
    let mut room = [0u8; 56];
    let bytes = &mut room[..version.second_size(count)];
    let place = version.first_size() as u64;
    read_unit(source, bytes, place)?;
    read_header_transmissions(version, unit, buffer, count, bytes, place)
}
