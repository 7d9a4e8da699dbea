//! The transmissions that a header describes.
ghost use Rattle.std.specs.Prelude.{◌≡◌, ◌≤◌, ◌*◌, length};
ghost use Rattle.rate_match.specs.Matching.{limit_of};
ghost use Rattle.coded_stream.specs.Opening.{first_size, described_size, limit_in};
ghost use Rattle.coded_stream.specs.Fields.{IsFirst, TransmissionsAreRead};

use crate::header_transmission::read_header_transmission;
use crate::stop::StreamStop;
use crate::version::Version;
use rate_match::{Buffer, Sends};

/// Returns the transmissions, one to eight, of these bytes, which begin at a place of the stream, after a
/// first unit with this buffer.
pub fn read_header_transmissions(
    version: Version,
    unit: &[u8],
    buffer: Buffer,
    count: usize,
    bytes: &[u8],
    place: u64,
) -> Result<Sends, StreamStop>
    requires whole { length unit.now ≡ first_size version }
    requires buffer { limit_of buffer ≡ limit_in version unit.now }
    requires matching { IsFirst version unit.now }
    requires some { 1 ≤ count }
    requires few { count ≤ 8 }
    requires size { length bytes.now ≡ count * described_size version }
    requires place { place ≤ 18 }
    ensures { TransmissionsAreRead version unit.now count place bytes.now result }
{
    let size = version.described_size();
    let (m, rv) = read_header_transmission(version, unit, buffer, &bytes[..size], place)?;
    let Some(mut sends) = Sends::one(m, rv) else {
        unreachable!();
    };
    for index in 1..count {
        let at = index * size;
        let bytes = &bytes[at..at + size];
        let (m, rv) = read_header_transmission(version, unit, buffer, bytes, place + at as u64)?;
        if !sends.add(m, rv) {
            unreachable!();
        }
    }
    Ok(sends)
}
