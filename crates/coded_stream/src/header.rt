//! The header of a stream.
ghost use Rattle.std.specs.Prelude.{◌≡◌, ◌≤◌, true};
ghost use Rattle.segmentation.specs.declared.planning.TheConstants.{MOST_BYTES};
ghost use Rattle.rate_match.specs.Sendings.{AreSendings, common};
ghost use Rattle.rate_match.specs.Fitting.{fits_all};
ghost use Rattle.coded_stream.specs.Header.{AreHeld};
ghost use Rattle.coded_stream.specs.Limit.{is_limit};

use crate::kind::Kind;
use crate::version::Version;
use rate_match::Sends;

/// The header of a stream: the version of the container, the kind of its transmissions, the bytes of the
/// greatest payload, 1 to 18,722, and the transmissions of each block. A limited buffer has room for 1 to
/// 1,000,000 values and fits every payload. In version One all transmissions have the same rate matching.
#[derive(Clone, Copy, Debug, PartialEq, Eq)]
pub struct Header {
    pub version: Version,
    pub kind: Kind,
    pub tb: usize,
    pub sends: Sends,
    pub ghost some: { 1 ≤ tb },
    pub ghost few: { tb ≤ MOST_BYTES },
    pub ghost sent: { AreSendings sends },
    pub ghost held: { AreHeld version sends },
    pub ghost limited: { is_limit (common sends).limit ≡ true },
    pub ghost fits: { fits_all (common sends).limit tb ≡ true },
}
