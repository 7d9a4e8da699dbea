//! The versions of the container.
ghost use Rattle.std.specs.Prelude.{◌≡◌, ◌≤◌, ◌*◌};
ghost use Rattle.coded_stream.specs.Header.{magic};
ghost use Rattle.coded_stream.specs.Opening.{first_size, described_size};

/// The version of the container.
#[derive(Clone, Copy, Debug, PartialEq, Eq, Hash)]
pub enum Version {
    /// `LTC1`: all transmissions of a block have the same G, Q_m and N_L.
    One,
    /// `LTC2`: each transmission has its own.
    Two,
}

impl Version {
    /// Returns the number of the first four bytes.
    pub(crate) fn magic(self) -> u32
        ensures { result ≡ magic self }
    {
        match self {
            Version::One => 0x4C54_4331,
            Version::Two => 0x4C54_4332,
        }
    }

    /// Returns the bytes of the header's first unit.
    pub(crate) fn first_size(self) -> usize
        ensures value { result ≡ first_size self }
        ensures some { 12 ≤ result }
        ensures few { result ≤ 18 }
    {
        match self {
            Version::One => 18,
            Version::Two => 12,
        }
    }

    /// Returns the bytes that describe a transmission in the header's second unit.
    pub(crate) fn described_size(self) -> usize
        ensures value { result ≡ described_size self }
        ensures some { 1 ≤ result }
        ensures few { result ≤ 7 }
    {
        match self {
            Version::One => 1,
            Version::Two => 7,
        }
    }

    /// Returns the bytes of the second unit for `count` transmissions, one to eight.
    pub(crate) fn second_size(self, count: usize) -> usize
        requires { count ≤ 8 }
        ensures value { result ≡ count * described_size self }
        ensures few { result ≤ 56 }
    {
        match self {
            Version::One => count,
            Version::Two => 7 * count,
        }
    }
}
