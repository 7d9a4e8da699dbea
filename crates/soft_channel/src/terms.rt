//! One value of a transmission.
ghost use Rattle.std.specs.Prelude.{◌≡◌, ◌≤◌, int_div, pos};
ghost use Rattle.std.specs.List.{sum};
ghost use Rattle.byteorder.specs.Endian.{big_bytes};
ghost use Rattle.lte_bits.specs.Softs.{IsWithin};
ghost use Rattle.soft_channel.specs.Noise.{deviation, received, sent, term};

use lte_bits::{Bit, Soft};

// The mean of the sum of a word's four bytes, and its standard deviation, rounded.
const MEAN: i32 = 510;

const DEVIATION: i32 = 148;

/// Returns by how much the sum of a word's four bytes is above its mean.
fn deviation(word: u32) -> i32
    ensures value { result ≡ deviation word }
    ensures range { IsWithin 510 result }
{
    let [a, b, c, d] = word.to_be_bytes();
    i32::from(a) + i32::from(b) + i32::from(c) + i32::from(d) - MEAN
}

/// Returns how many standard deviations a number is, rounded toward zero.
#[tactic(auto, using(crate::proofs::Quotients::quotient_cast, crate::proofs::Quotients::small_quotient))]
fn quotient(product: i32) -> i16
    requires { IsWithin 64770 product }
    ensures value { result ≡ int_div product (pos 148) }
    ensures range { IsWithin 437 result }
{
    (product / DEVIATION) as i16
}

/// Returns the noise term of a word.
pub fn term(noise: u8, word: u32) -> i16
    requires { noise ≤ 127 }
    ensures value { result ≡ term noise word }
    ensures range { IsWithin 437 result }
{
    quotient(i32::from(noise) * deviation(word))
}

/// Returns the amplitude for a 0, and its negative for a 1.
fn sent(amp: u8, bit: Bit) -> i16
    requires { amp ≤ 127 }
    ensures value { result ≡ sent amp bit }
    ensures range { IsWithin 127 result }
{
    match bit {
        Bit::Zero => i16::from(amp),
        Bit::One => -i16::from(amp),
    }
}

/// Returns the soft value of a bit with a noise term.
pub fn received(amp: u8, bit: Bit, term: i16) -> Soft
    requires amp { amp ≤ 127 }
    requires term { IsWithin 437 term }
    ensures { result ≡ received amp bit term }
{
    Soft::from_i8((sent(amp, bit) + term).clamp(-127, 127) as i8)
}
