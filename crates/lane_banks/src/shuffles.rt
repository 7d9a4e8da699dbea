//! Permutations of a row's numbers, eight at a time.
ghost use Rattle.std.specs.Prelude.{◌≡◌, ◌+◌, ◌*◌, ◌%◌, ◌≤◌, ◌<◌, ℕ, nat_lt, length, slice_index};
ghost use Rattle.std.specs.Prelude.{if◌then◌else◌};
ghost use Rattle.std.specs.Int.{w16, cast_unsigned, cast_signed};
ghost use Rattle.lte_bits.specs.Softs.{IsWithin};
ghost use Rattle.model_receiver.specs.Borders.{at};
ghost use Rattle.window_rows.specs.Rows.{IsLaneCount};

use std::simd::prelude::*;

/// Returns the first eight numbers of a row by their bits.
#[inline]
fn words(row: &[i16]) -> u16x8
    requires long { 8 ≤ length row.now }
    requires within { (t : ℕ) → t < 8 → IsWithin 32767 (at row.now t) }
    ensures long { length result ≡ 8 }
    ensures words { (t : ℕ) → t < 8 → slice_index result t ≡ cast_unsigned w16 (at row.now t) }
{
    let numbers = i16x8::from_slice(row);
    u16x8::from_le_bytes(numbers.to_le_bytes())
}

/// Returns the first eight lanes of a list as words.
#[inline]
fn places(lanes: &[u8]) -> u16x8
    requires { 8 ≤ length lanes.now }
    ensures long { length result ≡ 8 }
    ensures same { (t : ℕ) → t < 8 → slice_index result t ≡ slice_index lanes.now t }
{
    u8x8::from_slice(lanes).cast()
}

/// Returns in lane `t` the word of lane `lanes[t]` modulo 8.
#[inline]
fn moved(words: u16x8, lanes: u16x8) -> u16x8
    requires words { length words ≡ 8 }
    requires lanes { length lanes ≡ 8 }
    ensures long { length result ≡ 8 }
    ensures moved { (t : ℕ) → t < 8
        → slice_index result t ≡ slice_index words (slice_index lanes t % 8) }
{
    words.swizzle_dyn(lanes & u16x8::splat(7))
}

/// Returns the words of `later` where the lane is `first` or above it, and else those of `before`.
#[inline]
fn chosen(lanes: u16x8, first: u16, before: u16x8, later: u16x8) -> u16x8
    requires lanes { length lanes ≡ 8 }
    requires before { length before ≡ 8 }
    requires later { length later ≡ 8 }
    ensures long { length result ≡ 8 }
    ensures chosen { (t : ℕ) → t < 8 → slice_index result t
        ≡ if nat_lt (slice_index lanes t) first then slice_index before t else slice_index later t }
{
    lanes.simd_lt(u16x8::splat(first)).select(before, later)
}

/// Returns in lane `t` the bits of the number of lane `lanes[t]`, where there are N.
#[inline]
fn gathered<const N: usize>(from: &[i16], lanes: u16x8) -> u16x8
    requires count { IsLaneCount N }
    requires from { length from.now ≡ N }
    requires within { (t : ℕ) → t < N → IsWithin 32767 (at from.now t) }
    requires lanes { length lanes ≡ 8 }
    requires below { (t : ℕ) → t < 8 → slice_index lanes t < N }
    ensures long { length result ≡ 8 }
    ensures gathered { (t : ℕ) → t < 8
        → slice_index result t ≡ cast_unsigned w16 (at from.now (slice_index lanes t)) }
{
    let mut gathered = moved(words(from), lanes);
    for g in 1..N / 8 {
        let later = moved(words(&from[8 * g..]), lanes);
        gathered = chosen(lanes, (8 * g) as u16, gathered, later);
    }
    gathered
}

/// Writes the numbers of these bits to the first eight places.
#[inline]
fn put(words: u16x8, row: &mut [i16])
    requires row { 8 ≤ length row.old }
    ensures { (t : ℕ) → t < 8 → at row.new t ≡ cast_signed w16 (slice_index words t) }
{
    let numbers = i16x8::from_le_bytes(words.to_le_bytes());
    numbers.copy_to_slice(row);
}

/// Writes to lane `t` the number of lane `lanes[t]`.
#[inline]
pub fn shuffle<const N: usize>(from: &[i16; N], lanes: &[u8; N], to: &mut [i16; N])
    requires count { IsLaneCount N }
    requires within { (t : ℕ) → t < N → IsWithin 32767 (at from.now t) }
    requires below { (t : ℕ) → t < N → slice_index lanes.now t < N }
    ensures { (t : ℕ) → t < N → at to.new t ≡ at from.now (slice_index lanes.now t) }
{
    let lanes = &lanes[..];
    let to = &mut to[..];
    for h in 0..N / 8 {
        let first = 8 * h;
        put(
            gathered::<N>(from, places(&lanes[first..])),
            &mut to[first..],
        );
    }
}
