//! Soft values of sent bits, and the noise on them by itself.
ghost use Rattle.std.specs.Prelude.{◌≡◌, ◌≤◌, All, IfOk};
ghost use Rattle.lte_bits.specs.Softs.{IsWithin};
ghost use Rattle.soft_channel.specs.Noise.{noise_terms, noisy};

use crate::chunks::{received_values, terms_of};
use crate::words::{CHUNK, Purpose, generator, next_words};
use lte_bits::{Bit, List, NoMemory, Soft};
use std::alloc::Global;

/// Returns the first `count` terms, at most 1,000,000, of the noise on transmission `tx`, 0 to 7, of a block,
/// both counted from 0. A term is `noise`, at most 127, times a number of mean 0 and standard deviation about
/// 1, rounded toward zero: a number from -437 to 437. Allocates two bytes for each.
pub fn noise_terms(
    alloc: Global,
    count: usize,
    noise: u8,
    seed: u64,
    block: u32,
    tx: u8,
) -> Result<List<i16>, NoMemory>
    requires count { count ≤ 1000000 }
    requires noise { noise ≤ 127 }
    requires tx { tx ≤ 7 }
    ensures value { IfOk result (λ terms. terms ≡ noise_terms noise
        (record { seed = seed; block = block; number = tx }) count) }
    ensures range { IfOk result (All (IsWithin 437)) }
{
    let mut words = generator(Purpose::Noise, seed, block, tx);
    let mut terms = Vec::with_capacity(alloc, count)?;
    for _ in 0..count / CHUNK {
        terms.extend_from_slice(&terms_of(noise, &next_words(&mut words)))?;
    }
    terms.extend_from_slice(&terms_of(noise, &next_words(&mut words))[..count % CHUNK])?;
    Ok(List::from_vec(terms))
}

/// Returns the soft values of the bits of transmission `tx`, 0 to 7, of a block, both counted from 0: `amp`,
/// 1 to 127, for a 0 and -`amp` for a 1, plus the noise term of its place, clamped to -127 to 127. Allocates
/// a byte for each.
pub fn noisy(
    alloc: Global,
    bits: &[Bit],
    amp: u8,
    noise: u8,
    seed: u64,
    block: u32,
    tx: u8,
) -> Result<List<Soft>, NoMemory>
    requires amp { (1 ≤ amp) × (amp ≤ 127) }
    requires noise { noise ≤ 127 }
    requires tx { tx ≤ 7 }
    ensures { IfOk result (λ values. values ≡ noisy (record { amp = amp; noise = noise })
        (record { seed = seed; block = block; number = tx }) bits.now) }
{
    let mut words = generator(Purpose::Noise, seed, block, tx);
    let mut values = Vec::with_capacity(alloc, bits.len())?;
    let (whole, last) = bits.as_chunks::<CHUNK>();
    for chunk in whole {
        let terms = terms_of(noise, &next_words(&mut words));
        values.extend_from_slice(&received_values(amp, chunk, &terms))?;
    }
    let terms = terms_of(noise, &next_words(&mut words));
    values.extend_from_slice(&received_values(amp, last, &terms)[..last.len()])?;
    Ok(List::from_vec(values))
}
