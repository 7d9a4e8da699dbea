//! The parameters of the rate matching of a transport block.
ghost use Rattle.std.specs.Prelude.{◌≡◌, ◌↔◌, IsTrue};
ghost use Rattle.rate_match.specs.Matching.{IsMatch, limit_of, matched};

use std::error::Error;
use std::fmt;
use std::marker::Model;

/// The receiver's soft buffer for a transport block: N_IR of 36.212, 5.1.4.1.2.
#[derive(Clone, Copy, Debug, PartialEq, Eq, Hash)]
pub enum Buffer {
    /// The whole circular buffer of each code block.
    Full,
    /// N_IR soft values for all code blocks together.
    Limited(u32),
}

/// The rate matching of a transmission (36.212, 5.1.4.1.2): Q_m, the bits per modulation symbol, 2, 4 or 6;
/// N_L, the layers, 1 or 2; G, the bits of the codeword, from 1 to 1,000,000 and a multiple of N_L * Q_m; and
/// the soft buffer.
#[derive(Clone, Copy, Debug, PartialEq, Eq)]
pub struct Match {
    qm: u8,
    nl: u8,
    g: u32,
    limit: Option<u32>,
}

impl Model for Match {
    ghost use Rattle.model_sender.specs.CircularBuffer.{Match as Numbers};

    ghost Value = { Numbers };

    ghost use Rattle.rate_match.specs.Shown.{shown, IsKept, hidden};

    ghost view = { shown };

    ghost invariant = { IsKept };

    ghost inverse = { hidden };
}

/// The parameter that a matching is refused for.
#[derive(Clone, Copy, Debug, PartialEq, Eq, Hash)]
pub enum BadMatch {
    /// Q_m isn't 2, 4 or 6.
    BadQm,
    /// N_L isn't 1 or 2.
    BadNl,
    /// G is 0, above 1,000,000 or no multiple of N_L * Q_m.
    BadG,
}

impl fmt::Display for BadMatch {
    fn fmt<W: fmt::Write>(&self, f: &mut fmt::Formatter<W>) -> fmt::Result {
        f.write_str(match self {
            BadMatch::BadQm => "Q_m is 2, 4 or 6",
            BadMatch::BadNl => "N_L is 1 or 2",
            BadMatch::BadG => "G is 1 to 1000000 and a multiple of N_L * Q_m",
        })
    }
}

impl Error for BadMatch {}

impl Buffer {
    fn limit(self) -> Option<u32>
        ensures { result ≡ limit_of self }
    {
        match self {
            Buffer::Full => None,
            Buffer::Limited(limit) => Some(limit),
        }
    }
}

impl Match {
    /// Returns the matching of these numbers. `BadQm`, `BadNl` and `BadG` come in this order, each exactly
    /// where the number isn't accepted.
    pub fn new(qm: u8, nl: u8, g: u32, buffer: Buffer) -> Result<Match, BadMatch>
        ensures { result ≡ matched qm nl g (limit_of buffer) }
    {
        if qm != 2 && qm != 4 && qm != 6 {
            return Err(BadMatch::BadQm);
        }
        if nl != 1 && nl != 2 {
            return Err(BadMatch::BadNl);
        }
        if g == 0 || g > 1_000_000 || g % u32::from(nl * qm) != 0 {
            return Err(BadMatch::BadG);
        }
        Ok(Match {
            qm,
            nl,
            g,
            limit: buffer.limit(),
        })
    }

    /// Returns Q_m.
    pub fn qm(&self) -> u8
        ensures value { result ≡ self.now.qm }
        ensures lawful { IsMatch self.now }
    {
        self.qm
    }

    /// Returns N_L.
    pub fn nl(&self) -> u8
        ensures value { result ≡ self.now.nl }
        ensures lawful { IsMatch self.now }
    {
        self.nl
    }

    /// Returns G.
    pub fn g(&self) -> usize
        ensures value { result ≡ self.now.g }
        ensures lawful { IsMatch self.now }
    {
        self.g as usize
    }

    /// Returns whether both matchings have the same soft buffer.
    pub(crate) fn shares_buffer(&self, other: &Match) -> bool
        ensures same { IsTrue result ↔ (self.now.limit ≡ other.now.limit) }
        ensures lawful { IsMatch self.now }
    {
        self.limit == other.limit
    }

    /// Returns the soft buffer.
    pub fn buffer(&self) -> Buffer
        ensures value { limit_of result ≡ self.now.limit }
        ensures lawful { IsMatch self.now }
    {
        match self.limit {
            None => Buffer::Full,
            Some(limit) => Buffer::Limited(limit),
        }
    }
}
