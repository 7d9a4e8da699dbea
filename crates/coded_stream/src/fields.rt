//! The fields of a header's first unit.
ghost use Rattle.std.specs.Prelude.{◌≡◌, ◌≤◌, length};
ghost use Rattle.segmentation.specs.declared.planning.TheConstants.{MOST_BYTES};
ghost use Rattle.rate_match.specs.Matching.{limit_of};
ghost use Rattle.coded_stream.specs.Header.{limit_of_code};
ghost use Rattle.coded_stream.specs.Opening.{first_size, fields, further_fields, size_fields};
ghost use Rattle.coded_stream.specs.Fields.{AreRead, BufferIsRead, has_good_g};

use crate::cause;
use crate::kind::Want;
use crate::stop::StreamStop;
use crate::unit::{half_word, word};
use crate::version::Version;
use rate_match::{BadMatch, Buffer, Match, fits_lengths};
use segmentation::MOST_BYTES;

/// The fields of a header's first unit: the soft buffer, the bytes of the greatest payload, and the number of
/// transmissions of each block.
#[derive(Clone, Copy)]
pub struct Fields {
    pub buffer: Buffer,
    pub tb: usize,
    pub count: usize,
}

/// Returns the soft buffer of a header's N_IR field, 0 for a full one.
fn buffer_of(limit: u32) -> Buffer
    ensures { limit_of result ≡ limit_of_code limit }
{
    if limit == 0 {
        Buffer::Full
    } else {
        Buffer::Limited(limit)
    }
}

/// Returns the soft buffer of a header's N_IR field at a place of the stream, if it is accepted with payloads
/// of up to `tb` bytes.
fn read_buffer(limit: u32, tb: usize, place: u64) -> Result<Buffer, StreamStop>
    requires some { 1 ≤ tb }
    requires few { tb ≤ MOST_BYTES }
    ensures { BufferIsRead limit tb place result }
{
    let buffer = buffer_of(limit);
    if limit > 1_000_000 || !fits_lengths(buffer, tb) {
        return Err(StreamStop::bad_field(place));
    }
    Ok(buffer)
}

/// Returns the fields of version One from the number of transmissions on. `good` tells whether G is accepted.
fn read_first_sizes(unit: &[u8], good: bool) -> Result<Fields, StreamStop>
    requires whole { length unit.now ≡ 18 }
    requires good { good ≡ has_good_g unit.now }
    ensures { AreRead Version.One (size_fields Version.One unit.now) unit.now result }
{
    let count = unit[7] as usize;
    if count < 1 || count > 8 {
        return Err(StreamStop::bad_field(7));
    }
    let tb = half_word(unit, 8) as usize;
    if tb < 1 || tb > MOST_BYTES {
        return Err(StreamStop::bad_field(8));
    }
    if !good {
        return Err(StreamStop::bad_field(10));
    }
    let buffer = read_buffer(word(unit, 14), tb, 14)?;
    Ok(Fields { buffer, tb, count })
}

/// Returns the fields of version One after the kind, checked in order of place.
fn read_one(unit: &[u8]) -> Result<Fields, StreamStop>
    requires { length unit.now ≡ 18 }
    ensures { AreRead Version.One (further_fields Version.One unit.now) unit.now result }
{
    match Match::new(unit[5], unit[6], word(unit, 10), Buffer::Full) {
        Ok(_) => read_first_sizes(unit, true),
        Err(BadMatch::BadQm) => Err(StreamStop::bad_field(5)),
        Err(BadMatch::BadNl) => Err(StreamStop::bad_field(6)),
        Err(BadMatch::BadG) => read_first_sizes(unit, false),
    }
}

/// Returns the same of version Two.
fn read_two(unit: &[u8]) -> Result<Fields, StreamStop>
    requires { length unit.now ≡ 12 }
    ensures { AreRead Version.Two (further_fields Version.Two unit.now) unit.now result }
{
    let count = unit[5] as usize;
    if count < 1 || count > 8 {
        return Err(StreamStop::bad_field(5));
    }
    let tb = half_word(unit, 6) as usize;
    if tb < 1 || tb > MOST_BYTES {
        return Err(StreamStop::bad_field(6));
    }
    let buffer = read_buffer(word(unit, 8), tb, 8)?;
    Ok(Fields { buffer, tb, count })
}

/// Returns the fields of the first unit, checked in order of place.
pub fn read_fields(version: Version, unit: &[u8], want: Want) -> Result<Fields, StreamStop>
    requires { length unit.now ≡ first_size version }
    ensures { AreRead version (fields version want unit.now) unit.now result }
{
    if word(unit, 0) != version.magic() {
        return Err(StreamStop::bad(cause::BAD_MAGIC, 0));
    }
    if !want.takes(unit[4]) {
        return Err(StreamStop::bad(cause::BAD_KIND, 4));
    }
    match version {
        Version::One => read_one(unit),
        Version::Two => read_two(unit),
    }
}
