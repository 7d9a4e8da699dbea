//! A channel with noise.
ghost use Rattle.std.specs.Prelude.{◌≡◌, ◌≤◌, All, IfOk};
ghost use Rattle.lte_bits.specs.Softs.{IsWithin};
ghost use Rattle.soft_channel.specs.Channel.{strength_of, transmission_over};
ghost use Rattle.soft_channel.specs.Noise.{noise_terms, noisy};

use crate::noise::{noise_terms, noisy};
use lte_bits::{Bit, List, NoMemory, Soft};
use std::alloc::Global;
use std::marker::Model;

/// The amplitude of a sent bit, 1 to 127; the noise on it, 0 to 127, about its standard deviation; and the seed
/// that the noise comes from.
#[derive(Clone, Copy, Debug, Drop, PartialEq, Eq)]
pub struct NoiseChannel {
    pub amp: u8,
    pub noise: u8,
    pub seed: u64,
}

impl Model for NoiseChannel {
    ghost use Rattle.soft_channel.specs.Channel.{NoiseChannel as Numbers, IsChannel};

    ghost Value = { Numbers };

    ghost view = { λ c. record { amp = c.amp; noise = c.noise; seed = c.seed } };

    ghost invariant = { λ c. IsChannel (record { amp = c.amp; noise = c.noise; seed = c.seed }) };

    ghost inverse = { λ c. record { amp = c.amp; noise = c.noise; seed = c.seed } };
}

impl NoiseChannel {
    /// Returns the soft values that are received of the bits of transmission `tx`, 0 to 7, of a block, both
    /// counted from 0. Allocates a byte for each.
    pub fn noisy(
        &self,
        alloc: Global,
        bits: &[Bit],
        block: u32,
        tx: u8,
    ) -> Result<List<Soft>, NoMemory>
        requires { tx ≤ 7 }
        ensures { IfOk result (λ values. values
            ≡ noisy (strength_of self.now) (transmission_over self.now block tx) bits.now) }
    {
        noisy(alloc, bits, self.amp, self.noise, self.seed, block, tx)
    }

    /// Returns the first `count` terms, at most 1,000,000, of the noise on transmission `tx`, 0 to 7, of a
    /// block, both counted from 0. Allocates two bytes for each.
    pub fn terms(
        &self,
        alloc: Global,
        count: usize,
        block: u32,
        tx: u8,
    ) -> Result<List<i16>, NoMemory>
        requires count { count ≤ 1000000 }
        requires tx { tx ≤ 7 }
        ensures value { IfOk result (λ terms. terms
            ≡ noise_terms self.now.noise (transmission_over self.now block tx) count) }
        ensures range { IfOk result (All (IsWithin 437)) }
    {
        noise_terms(alloc, count, self.noise, self.seed, block, tx)
    }
}
