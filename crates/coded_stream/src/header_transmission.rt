//! One transmission that a header describes.
ghost use Rattle.std.specs.Prelude.{◌≡◌, ◌<◌, ◌^◌, length};
ghost use Rattle.rate_match.specs.Matching.{limit_of};
ghost use Rattle.coded_stream.specs.Opening.{first_size, described_size, limit_in};
ghost use Rattle.coded_stream.specs.Fields.{IsFirst, TransmissionIsRead};

use crate::stop::StreamStop;
use crate::unit::word;
use crate::version::Version;
use rate_match::{BadMatch, Buffer, Match};

/// Returns a transmission of version One, for which the first unit has the rate matching.
fn read_of_one(
    unit: &[u8],
    buffer: Buffer,
    bytes: &[u8],
    place: u64,
) -> Result<(Match, u8), StreamStop>
    requires whole { length unit.now ≡ 18 }
    requires one { length bytes.now ≡ 1 }
    requires buffer { limit_of buffer ≡ limit_in Version.One unit.now }
    requires matching { IsFirst Version.One unit.now }
    ensures { TransmissionIsRead Version.One unit.now place bytes.now result }
{
    let rv = bytes[0];
    match Match::new(unit[5], unit[6], word(unit, 10), buffer) {
        Ok(_) if rv > 3 => Err(StreamStop::bad_field(place)),
        Ok(m) => Ok((m, rv)),
        Err(_) => unreachable!(),
    }
}

/// Returns a transmission of version Two.
fn read_of_two(
    unit: &[u8],
    buffer: Buffer,
    bytes: &[u8],
    place: u64,
) -> Result<(Match, u8), StreamStop>
    requires seven { length bytes.now ≡ 7 }
    requires buffer { limit_of buffer ≡ limit_in Version.Two unit.now }
    requires place { place < 2 ^ 60 }
    ensures { TransmissionIsRead Version.Two unit.now place bytes.now result }
{
    let rv = bytes[2];
    match Match::new(bytes[0], bytes[1], word(bytes, 3), buffer) {
        Err(BadMatch::BadQm) => Err(StreamStop::bad_field(place)),
        Err(BadMatch::BadNl) => Err(StreamStop::bad_field(place + 1)),
        _ if rv > 3 => Err(StreamStop::bad_field(place + 2)),
        Err(BadMatch::BadG) => Err(StreamStop::bad_field(place + 3)),
        Ok(m) => Ok((m, rv)),
    }
}

/// Returns the transmission of these bytes of the second unit, which begin at a place of the stream, after
/// a first unit with this buffer: its rate matching and its redundancy version.
pub fn read_header_transmission(
    version: Version,
    unit: &[u8],
    buffer: Buffer,
    bytes: &[u8],
    place: u64,
) -> Result<(Match, u8), StreamStop>
    requires whole { length unit.now ≡ first_size version }
    requires size { length bytes.now ≡ described_size version }
    requires buffer { limit_of buffer ≡ limit_in version unit.now }
    requires matching { IsFirst version unit.now }
    requires place { place < 2 ^ 60 }
    ensures { TransmissionIsRead version unit.now place bytes.now result }
{
    match version {
        Version::One => read_of_one(unit, buffer, bytes, place),
        Version::Two => read_of_two(unit, buffer, bytes, place),
    }
}
