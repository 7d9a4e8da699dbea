//! A number of 16 bits for each of the eight states, as lanes of one vector in order of the states'
//! numbers.
ghost use Rattle.std.specs.Prelude.{◌≡◌, ◌+ℤ◌, ◌-ℤ◌};
ghost use Rattle.std.specs.Int.{int_max};
ghost use Rattle.lte_bits.specs.Softs.{IsWithin};
ghost use Rattle.lte_bits.specs.declared.bit.Bit.TheVariants.{One};
ghost use Rattle.model_sender.specs.ConstituentCoder.{zero_state, next, parity};
ghost use Rattle.rsc_trellis.specs.Steps.{state_before, input_before};
ghost use Rattle.model_sender.specs.Bits.{plus};
ghost use Rattle.model_receiver.specs.Borders.{state, border_of, number_for, relative, if_zero};
ghost use Rattle.model_receiver.specs.Paths.{greatest};
ghost use Rattle.window_decode.specs.Recursions.{IsBounded};
ghost use Rattle.window_decode.specs.Lanes.{IsLanes};

use lte_bits::Bit;
use std::simd::prelude::*;

/// Broadcasts a number to all states.
#[inline]
pub fn all(value: i16) -> i16x8
    ensures { result ≡ border_of (λ _. value) }
{
    i16x8::splat(value)
}

/// Returns the sums, state by state.
#[inline]
pub fn sum(a: i16x8, b: i16x8) -> i16x8
    requires first { IsLanes a }
    requires second { IsLanes b }
    requires fits { IsBounded 32767 (λ s. number_for a s +ℤ number_for b s) }
    ensures { result ≡ border_of (λ s. number_for a s +ℤ number_for b s) }
{
    a.strict_add(b)
}

/// Returns the greater numbers, state by state.
#[inline]
pub fn larger(a: i16x8, b: i16x8) -> i16x8
    requires first { IsLanes a }
    requires second { IsLanes b }
    ensures { result ≡ border_of (λ s. int_max (number_for a s) (number_for b s)) }
{
    a.simd_max(b)
}

/// Broadcasts the number of state 0 to all states.
#[inline]
fn of_state_zero(a: i16x8) -> i16x8
    requires { IsLanes a }
    ensures { result ≡ border_of (λ _. number_for a zero_state) }
{
    a.swizzle([0, 0, 0, 0, 0, 0, 0, 0])
}

/// Returns by how much the states' numbers are above that of state 0.
#[inline]
pub fn above_zero(a: i16x8) -> i16x8
    requires lanes { IsLanes a }
    requires fits { IsBounded 32767 (λ s. number_for a s -ℤ number_for a zero_state) }
    ensures { result ≡ relative (number_for a) }
{
    a.strict_sub(of_state_zero(a))
}

/// Returns for each state the number of its predecessor whose oldest value is `oldest`.
#[inline]
pub fn before_by(oldest: Bit, a: i16x8) -> i16x8
    requires { IsLanes a }
    ensures { result ≡ border_of (λ s. number_for a (state_before s oldest)) }
{
    match oldest {
        Bit::Zero => a.swizzle([0, 2, 4, 6, 0, 2, 4, 6]),
        Bit::One => a.swizzle([1, 3, 5, 7, 1, 3, 5, 7]),
    }
}

/// Returns for each state the number of its successor by an input.
#[inline]
pub fn after_by(input: Bit, a: i16x8) -> i16x8
    requires { IsLanes a }
    ensures { result ≡ border_of (λ s. number_for a (next s input)) }
{
    match input {
        Bit::Zero => a.swizzle([0, 4, 5, 1, 2, 6, 7, 3]),
        Bit::One => a.swizzle([4, 0, 1, 5, 6, 2, 3, 7]),
    }
}

/// Returns for each state the input metric of the branch from its predecessor whose oldest value is `oldest`.
#[inline]
pub fn input_by(oldest: Bit, value: i16) -> i16x8
    ensures { result ≡ border_of (λ s. if_zero (input_before s oldest) value) }
{
    let value = i16x8::splat(value);
    match oldest {
        Bit::Zero => value.shuffle(i16x8::splat(0), [0, 8, 0, 8, 8, 0, 8, 0]),
        Bit::One => value.shuffle(i16x8::splat(0), [8, 0, 8, 0, 0, 8, 0, 8]),
    }
}

/// Returns for each state the parity metric of the branch by an input.
#[inline]
pub fn parity_of(input: Bit, value: i16) -> i16x8
    ensures { result ≡ border_of (λ s. if_zero (parity s input) value) }
{
    let value = i16x8::splat(value);
    match input {
        Bit::Zero => value.shuffle(i16x8::splat(0), [0, 0, 8, 8, 8, 8, 0, 0]),
        Bit::One => value.shuffle(i16x8::splat(0), [8, 8, 0, 0, 0, 0, 8, 8]),
    }
}

/// Returns for each state the number of the state with the newest value flipped.
#[inline]
fn newest_turned(a: i16x8) -> i16x8
    requires { IsLanes a }
    ensures { result ≡ border_of (λ s. number_for a (state (plus One s.a1) s.a2 s.a3)) }
{
    a.swizzle([4, 5, 6, 7, 0, 1, 2, 3])
}

/// Returns for each state the number of the state with the middle value flipped.
#[inline]
fn middle_turned(a: i16x8) -> i16x8
    requires { IsLanes a }
    ensures { result ≡ border_of (λ s. number_for a (state s.a1 (plus One s.a2) s.a3)) }
{
    a.swizzle([2, 3, 0, 1, 6, 7, 4, 5])
}

/// Returns for each state the number of the state with the oldest value flipped.
#[inline]
fn oldest_turned(a: i16x8) -> i16x8
    requires { IsLanes a }
    ensures { result ≡ border_of (λ s. number_for a (state s.a1 s.a2 (plus One s.a3))) }
{
    a.swizzle([1, 0, 3, 2, 5, 4, 7, 6])
}

/// Returns the greatest of the states' numbers.
#[inline]
pub fn greatest(a: i16x8) -> i16
    requires { IsLanes a }
    ensures { result ≡ greatest a }
{
    let of_two = larger(a, newest_turned(a));
    let of_four = larger(of_two, middle_turned(of_two));
    let of_eight = larger(of_four, oldest_turned(of_four));
    of_eight.to_array()[0]
}
