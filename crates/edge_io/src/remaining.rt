//! A list of bytes that is consumed from its front.
ghost use Rattle.std.specs.Prelude.{◌≡◌, ◌≤◌, ℕ, List as Items, length, vec_len, min, take, drop};

use lte_bits::List;
use std::marker::Model;

/// The bytes that are left.
#[derive(Debug, Drop)]
pub struct Remaining {
    bytes: Vec<u8>,
    at: usize,
}

impl Model for Remaining {
    ghost Value = { Items ℕ };

    ghost view = { λ r. drop r.at r.bytes.items };

    ghost invariant = { λ r. r.at ≤ vec_len r.bytes };
}

impl Remaining {
    pub fn new(bytes: List<u8>) -> Self
        ensures { result ≡ bytes }
    {
        Remaining {
            bytes: bytes.into_vec(),
            at: 0,
        }
    }

    pub fn as_slice(&self) -> &[u8]
        ensures { result.now ≡ self.now }
    {
        &self.bytes.as_slice()[self.at..]
    }

    /// Moves bytes from the front to `buf`, as many as fit and at most `most`, and returns their number.
    pub fn give(&mut self, buf: &mut [u8], most: usize) -> usize
        ensures count { result ≡ min (min most (length buf.old)) (length self.old) }
        ensures bytes { take result buf.new ≡ take result self.old }
        ensures rest { self.new ≡ drop result self.old }
    {
        let left = self.as_slice();
        let count = most.min(buf.len()).min(left.len());
        buf[..count].copy_from_slice(&left[..count]);
        self.at += count;
        count
    }
}
