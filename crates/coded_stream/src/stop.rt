//! Why reading a stream stops.
ghost use Rattle.std.specs.Prelude.{◌≡◌};

use crate::cause;
use std::error::Error;
use std::fmt;

/// Why reading a stream stops.
#[derive(Clone, Copy, Debug, PartialEq, Eq, Hash)]
pub enum StreamStop {
    /// The stream is refused at a byte, counted from 0. The module `cause` has the numbers.
    Bad { number: u8, place: u64 },
    /// The source failed.
    Fault,
    /// Memory ran out, and nothing was read.
    NoMemory,
}

impl StreamStop {
    /// Returns the refusal of a field, other than the magic and the kind, at its first byte.
    pub(crate) fn bad_field(place: u64) -> StreamStop
        ensures { result ≡ StreamStop.Bad 3 place }
    {
        StreamStop::bad(cause::BAD_FIELD, place)
    }

    /// Returns the refusal of a stream at a byte, with a number of the module `cause`.
    pub(crate) fn bad(number: u8, place: u64) -> StreamStop
        ensures { result ≡ StreamStop.Bad number place }
    {
        StreamStop::Bad { number, place }
    }
}

impl fmt::Display for StreamStop {
    fn fmt<W: fmt::Write>(&self, f: &mut fmt::Formatter<W>) -> fmt::Result {
        match self {
            StreamStop::Bad { number, place } => {
                write!(f, "the stream is refused at byte {place}, cause {number}")
            }
            StreamStop::Fault => f.write_str("the source failed"),
            StreamStop::NoMemory => f.write_str("no memory"),
        }
    }
}

impl Error for StreamStop {}
