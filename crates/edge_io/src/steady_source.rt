//! A source over bytes in memory that never fails.
ghost use Rattle.std.specs.Prelude.{◌≡◌, ◌≤◌, ◌+◌, ℕ, List as Items, min, length, drop, Some};
ghost use Rattle.edge_io.specs.Edge.{HasCause, ReadTakes};

use crate::remaining::Remaining;
use crate::{Source, SourceFault};
use lte_bits::List;
use std::marker::Model;

/// A source over bytes in memory that reads as many at a time as fit.
#[derive(Debug, Drop)]
pub struct SteadySource {
    rest: Remaining,
}

impl Model for SteadySource {
    ghost Value = { Items ℕ };

    ghost view = { λ s. s.rest };
}

impl SteadySource {
    /// Returns a source of these bytes.
    pub fn new(bytes: List<u8>) -> Self
        ensures { result ≡ bytes }
    {
        SteadySource {
            rest: Remaining::new(bytes),
        }
    }
}

impl Source for SteadySource {
    ghost left = { λ s. Some s };

    ghost faults = { λ _. 0 };

    fn read(&mut self, buf: &mut [u8]) -> Result<usize, SourceFault>
        ensures bytes { ReadTakes (Some self.old) (Some self.new) result buf.new }
        ensures cause { HasCause 0 0 result }

        ensures count { result ≡ Ok (min (length buf.old) (length self.old)) }
    {
        let most = buf.len();
        Ok(self.rest.give(buf, most))
    }
}
