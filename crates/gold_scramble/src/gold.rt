//! The generator of the sequence.
ghost use Rattle.std.specs.Prelude.{◌≡◌, ◌≤◌, ◌<◌, ◌^◌};
ghost use Rattle.lte_bits.specs.Bits.{number};
ghost use Rattle.gold_scramble.specs.Places.{places};
ghost use Rattle.gold_scramble.specs.Registers.{AreWhole, coming, moved, started};

use crate::initial::Init;
use crate::registers::{x1_continued, x2_continued};
use lte_bits::Bit;
use std::marker::Model;

// 31 ones.
const REGISTER: u64 = 0x7FFF_FFFF;

// N_c = 1600 bits are discarded before the sequence, 16 at a time.
const STEPS: u32 = 100;

const STEP: u32 = 16;

/// A generator of the pseudo-random sequence (36.211 7.2): the registers of x1 and x2, of 31 places each. The
/// bits to come are the modulo-2 sums of x1 and x2, each continued by its recurrence.
#[derive(Debug, Drop)]
pub struct Gold {
    x1: u32,
    x2: u32,
}

impl Model for Gold {
    ghost use Rattle.std.specs.Prelude.{◌<◌, ◌^◌};
    ghost use Rattle.gold_scramble.specs.Places.{highest_first};
    ghost use Rattle.gold_scramble.specs.Registers.{Registers};

    ghost Value = { Registers };

    ghost view = { λ g. record { x1 = highest_first 31 g.x1; x2 = highest_first 31 g.x2 } };

    ghost invariant = { λ g. (g.x1 < 2 ^ 31) × (g.x2 < 2 ^ 31) };
}

impl Gold {
    /// Returns the generator whose next bit is c(0) (36.211 7.2), after discarding the first N_c = 1600 bits
    /// of x1 and x2.
    pub fn new(init: Init) -> Gold
        ensures { result ≡ started init }
    {
        let mut gold = Gold {
            x1: 1 << 30,
            x2: init.value().reverse_bits() >> 1,
        };
        for _ in 0..STEPS {
            let _left_out = gold.next_bits(STEP);
        }
        gold
    }

    /// Returns the next `count` bits, at most 28, the first one most significant.
    #[inline]
    fn next_bits(&mut self, count: u32) -> u32
        requires { count ≤ 28 }
        ensures bits { result ≡ number (places (coming self.old) 0 count) }
        ensures moved { self.new ≡ moved self.old count }
        ensures small { result < 2 ^ count }
        ensures whole { AreWhole self.old }
    {
        let x1 = x1_continued(self.x1, count);
        let x2 = x2_continued(self.x2, count);
        self.x1 = (x1 & REGISTER) as u32;
        self.x2 = (x2 & REGISTER) as u32;
        ((x1 ^ x2) >> 31) as u32
    }

    /// Returns the next bit.
    pub fn next_bit(&mut self) -> Bit
        ensures bit { result ≡ coming self.old 0 }
        ensures moved { self.new ≡ moved self.old 1 }
    {
        match self.next_bits(1) {
            0 => Bit::Zero,
            _ => Bit::One,
        }
    }

    /// Returns the next 32 bits, the first one most significant.
    pub fn next_word(&mut self) -> u32
        ensures bits { result ≡ number (places (coming self.old) 0 32) }
        ensures moved { self.new ≡ moved self.old 32 }
    {
        let high = self.next_bits(16);
        let low = self.next_bits(16);
        (high << 16) | low
    }
}
