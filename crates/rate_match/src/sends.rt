//! The transmissions of a transport block.
ghost use Rattle.std.specs.Prelude.{◌≡◌, ◌≤◌, ◌<◌, ◌↔◌, [], ◌∷◌, ◌++◌, length, slice_get};
ghost use Rattle.std.specs.Prelude.{IsTrue, IsSome, IfSome, Some, false};
ghost use Rattle.rate_match.specs.Matching.{limit_of};
ghost use Rattle.rate_match.specs.Sendings.{AreSendings, AreEven, common};

use crate::matching::{Buffer, Match};
use std::marker::Model;

/// The maximum number of transmissions of a transport block.
const MOST: usize = 8;

/// One transmission: its rate matching, and its redundancy version, 0 to 3.
#[derive(Clone, Copy, Debug, PartialEq, Eq)]
pub struct Sending {
    pub m: Match,
    pub rv: u8,
}

/// One to eight transmissions, all with the same soft buffer, in the order in which they are sent. None of
/// its calls allocates.
#[derive(Clone, Copy, Debug, PartialEq, Eq)]
pub struct Sends {
    values: [Sending; MOST],
    held: usize,
}

impl Model for Sends {
    ghost use Rattle.std.specs.Prelude.{List};
    ghost use Rattle.rate_match.specs.declared.sends.Sending.{Sending};

    ghost Value = { List Sending };

    ghost use Rattle.rate_match.specs.Held.{sendings_held, IsHeld, filled_up, filled_up-held};

    ghost view = { sendings_held };

    ghost invariant = { IsHeld };

    ghost inverse = { filled_up };

    ghost inverse_ok = { filled_up-held };
}

impl Sends {
    /// Returns a single transmission. `None` comes exactly where the redundancy version is above 3.
    pub fn one(m: Match, rv: u8) -> Option<Sends>
        ensures some { IsSome result ↔ (rv ≤ 3) }
        ensures value { IfSome result (λ sends. sends ≡ record { m = m; rv = rv } ∷ []) }
    {
        if rv > 3 {
            return None;
        }
        Some(Sends {
            values: [Sending { m, rv }; MOST],
            held: 1,
        })
    }

    /// Appends a transmission. Returns false, with nothing changed, exactly if the redundancy version is
    /// above 3, there are eight transmissions already, or the soft buffer differs.
    pub fn add(&mut self, m: Match, rv: u8) -> bool
        ensures taken { IsTrue result
            ↔ ((rv ≤ 3) × (length self.old < 8) × (m.limit ≡ (common self.old).limit)) }
        ensures added { IsTrue result → self.new ≡ self.old ++ record { m = m; rv = rv } ∷ [] }
        ensures same { result ≡ false → self.new ≡ self.old }
    {
        if rv > 3 || self.held == MOST || !m.shares_buffer(&self.values[0].m) {
            return false;
        }
        self.values[self.held] = Sending { m, rv };
        self.held += 1;
        true
    }

    /// Returns the number of transmissions.
    pub fn len(&self) -> usize
        ensures value { result ≡ length self.now }
        ensures lawful { AreSendings self.now }
    {
        self.held
    }

    /// Returns the soft buffer of all of them.
    pub fn buffer(&self) -> Buffer
        ensures value { limit_of result ≡ (common self.now).limit }
        ensures lawful { AreSendings self.now }
    {
        self.values[0].m.buffer()
    }

    /// Returns transmission `i`; `i` is below the length.
    pub fn at(&self, i: usize) -> (Match, u8)
        requires { i < length self.now }
        ensures value { slice_get self.now i ≡ Some (record { m = result.0; rv = result.1 }) }
        ensures lawful { AreSendings self.now }
    {
        let sending = &self.values[..self.held][i];
        (sending.m, sending.rv)
    }

    /// Returns whether all the matchings are equal.
    pub fn even(&self) -> bool
        ensures even { IsTrue result ↔ AreEven self.now }
        ensures lawful { AreSendings self.now }
    {
        let first = self.values[0].m;
        self.values[..self.held]
            .iter()
            .all(|sending| sending.m == first)
    }
}
