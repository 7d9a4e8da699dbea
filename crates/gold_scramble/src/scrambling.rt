//! Scrambling of bits, and descrambling of soft values.
ghost use Rattle.std.specs.Prelude.{◌≡◌, ◌≤◌, ◌<◌, ◌-◌, length};
ghost use Rattle.gold_scramble.specs.Places.{at, binary_digit, highest_first, plus};
ghost use Rattle.gold_scramble.specs.Scrambling.{added, scrambled, turned, turned_by, turned_value};

use crate::gold::Gold;
use crate::initial::Init;
use lte_bits::{Bit, Soft};

/// Returns the bit of weight 2^i of a word.
#[inline]
fn digit(word: u32, i: usize) -> Bit
    requires { i < 32 }
    ensures { result ≡ binary_digit word i }
{
    match (word >> i) % 2 {
        0 => Bit::Zero,
        _ => Bit::One,
    }
}

/// Returns the sum of two bits.
#[inline]
fn plus(a: Bit, b: Bit) -> Bit
    ensures { result ≡ plus a b }
{
    if a == b { Bit::Zero } else { Bit::One }
}

/// Adds the bits of a word to at most 32 bits, its highest to the first.
fn add_word(bits: &mut [Bit], word: u32)
    requires { length bits.old ≤ 32 }
    ensures { bits.new ≡ added (at (highest_first 32 word)) bits.old }
{
    for i in 0..bits.len() {
        bits[i] = plus(bits[i], digit(word, 31 - i));
    }
}

/// Scrambles a transmission's bits: adds the sequence's bit of each place (36.211 6.3.1, 5.3.1). Scrambling
/// twice restores them.
pub fn scramble_bits(bits: &mut [Bit], init: Init)
    ensures { bits.new ≡ scrambled init bits.old }
{
    let mut gold = Gold::new(init);
    for i in 0..bits.len().div_ceil(32) {
        let from = 32 * i;
        let to = from.saturating_add(32).min(bits.len());
        add_word(&mut bits[from..to], gold.next_word());
    }
}

/// Returns a soft value, negated if the bit is 1.
#[inline]
fn turn(soft: Soft, by: Bit) -> Soft
    ensures { result ≡ turned_value by soft }
{
    match by {
        Bit::Zero => soft,
        Bit::One => Soft::from_i8(-soft.value()),
    }
}

/// Negates those of at most 32 soft values whose bit of the word is 1, the first by the most significant bit.
fn turn_by_word(softs: &mut [Soft], word: u32)
    requires { length softs.old ≤ 32 }
    ensures { softs.new ≡ turned_by (at (highest_first 32 word)) softs.old }
{
    for i in 0..softs.len() {
        softs[i] = turn(softs[i], digit(word, 31 - i));
    }
}

/// Descrambles a transmission's soft values (36.211 6.3.1, 5.3.1): negates those where the sequence has a 1.
/// Descrambling twice restores them.
pub fn turn_softs(softs: &mut [Soft], init: Init)
    ensures { softs.new ≡ turned init softs.old }
{
    let mut gold = Gold::new(init);
    for i in 0..softs.len().div_ceil(32) {
        let from = 32 * i;
        let to = from.saturating_add(32).min(softs.len());
        turn_by_word(&mut softs[from..to], gold.next_word());
    }
}
