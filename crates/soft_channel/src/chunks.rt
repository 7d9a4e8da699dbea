//! Noise terms and soft values, one chunk of words at a time. These loops neither draw nor allocate, so that
//! the compiler vectorizes them.
ghost use Rattle.std.specs.Prelude.{◌≡◌, ◌≤◌, All, length, map, pos, slice_index_or, take};
ghost use Rattle.std.specs.List.{range_with_len};
ghost use Rattle.lte_bits.specs.Softs.{IsWithin};
ghost use Rattle.lte_bits.specs.declared.bit.Bit.TheVariants.{Zero};
ghost use Rattle.soft_channel.specs.Noise.{received, term};

use crate::terms::{received, term};
use crate::words::CHUNK;
use lte_bits::{Bit, Soft};

/// Returns the noise term of each word.
pub fn terms_of(noise: u8, words: &[u32; CHUNK]) -> [i16; CHUNK]
    requires { noise ≤ 127 }
    ensures value { result ≡ map (term noise) words.now }
    ensures range { All (IsWithin 437) result }
{
    let mut terms = [0; CHUNK];
    for (i, word) in words.iter().enumerate() {
        terms[i] = term(noise, *word);
    }
    terms
}

/// Returns the soft values of at most `CHUNK` bits, each with the noise term of its place; values after the
/// last bit are unspecified.
pub fn received_values(amp: u8, bits: &[Bit], terms: &[i16; CHUNK]) -> [Soft; CHUNK]
    requires amp { amp ≤ 127 }
    requires few { length bits.now ≤ CHUNK }
    requires terms { All (IsWithin 437) terms.now }
    ensures { take (length bits.now) result
        ≡ map (λ k. received amp (slice_index_or bits.now k Zero) (slice_index_or terms.now k (pos 0)))
        (range_with_len 0 (length bits.now)) }
{
    let mut values = [Soft::ZERO; CHUNK];
    for (i, bit) in bits.iter().enumerate() {
        values[i] = received(amp, *bit, terms[i]);
    }
    values
}
