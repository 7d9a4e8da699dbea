//! Borders between windows.
ghost use Rattle.std.specs.Prelude.{◌≡◌, ◌<◌, ◌+ℤ◌, ◌-ℤ◌, length};
ghost use Rattle.model_sender.specs.ConstituentCoder.{zero_state};
ghost use Rattle.model_receiver.specs.Borders.{IsBorder, number_for, border_of, at, if_zero};
ghost use Rattle.model_receiver.specs.Borders.{relative, unknown, known, tail, tail_sum};
ghost use Rattle.lte_bits.specs.Softs.{IsWithin};
ghost use Rattle.window_decode.specs.Recursions.{IsBounded, IsMetrics, AreNear};

use lte_bits::{Bit, Soft};
use rsc_trellis::{State, tail_path};
use std::marker::Model;
use std::simd::prelude::*;

/// The state metrics at a border, relative to that of state 0, which is 0. The greatest and the least differ
/// by at most 4096.
#[derive(Clone, Copy, Debug, PartialEq, Eq)]
pub struct Border {
    numbers: [i16; 8],
}

impl Model for Border {
    ghost use Rattle.std.specs.Prelude.{ℤ, List};
    ghost use Rattle.model_receiver.specs.Borders.{IsBorder};

    ghost Value = { List ℤ };

    ghost view = { λ b. b.numbers };

    ghost invariant = { λ b. IsBorder b.numbers };

    ghost inverse = { λ z. record { numbers = z } };
}

impl Border {
    /// Returns the border at which the state is unknown: all metrics are 0.
    pub fn unknown() -> Border
        ensures { result ≡ unknown }
    {
        Border { numbers: [0; 8] }
    }

    /// Returns the border at which the state is 0: the other states have the metric -4096.
    pub fn known() -> Border
        ensures { result ≡ known }
    {
        Border {
            numbers: [0, -4096, -4096, -4096, -4096, -4096, -4096, -4096],
        }
    }

    /// Returns the border after the last position, by the soft values of the tail's input bits and parity
    /// bits (36.212 5.1.3.2.2).
    pub fn tail(x: [Soft; 3], z: [Soft; 3]) -> Border
        ensures { result ≡ tail x z }
    {
        Border::relative(&Tail { x, z }.numbers())
    }

    /// Returns the metric of a state.
    pub fn value(&self, s: State) -> i16
        ensures value { result ≡ number_for self.now s }
        ensures border { IsBorder self.now }
    {
        self.numbers[usize::from(s.number())]
    }

    /// Returns the metrics, in order of the states' numbers.
    pub fn numbers(&self) -> &[i16; 8]
        ensures value { result.now ≡ self.now }
        ensures border { IsBorder self.now }
    {
        &self.numbers
    }

    /// Returns the border with these metrics.
    pub fn from_numbers(numbers: [i16; 8]) -> Border
        requires { IsBorder numbers }
        ensures { result ≡ numbers }
    {
        Border { numbers }
    }

    /// Returns the metrics, in order of the states' numbers.
    pub(crate) fn lanes(&self) -> i16x8
        ensures value { result ≡ self.now }
        ensures border { IsBorder self.now }
    {
        i16x8::from_array(self.numbers)
    }

    /// Returns the border with these metrics.
    pub(crate) fn from_lanes(numbers: i16x8) -> Border
        requires { IsBorder numbers }
        ensures { result ≡ numbers }
    {
        Border {
            numbers: numbers.to_array(),
        }
    }

    /// Returns metrics that differ by at most 4096, relative to that of state 0.
    fn relative(metrics: &[i64; 8]) -> Border
        requires metrics { IsMetrics metrics.now }
        requires near { AreNear 4096 (number_for metrics.now) }
        ensures { result ≡ relative (number_for metrics.now) }
    {
        let (z, o) = (Bit::Zero, Bit::One);
        Border {
            numbers: [
                above_zero(metrics, State::from_bits(z, z, z)),
                above_zero(metrics, State::from_bits(z, z, o)),
                above_zero(metrics, State::from_bits(z, o, z)),
                above_zero(metrics, State::from_bits(z, o, o)),
                above_zero(metrics, State::from_bits(o, z, z)),
                above_zero(metrics, State::from_bits(o, z, o)),
                above_zero(metrics, State::from_bits(o, o, z)),
                above_zero(metrics, State::from_bits(o, o, o)),
            ],
        }
    }
}

/// Returns the number of a state in a list of eight.
fn number_of(numbers: &[i64; 8], s: State) -> i64
    requires { length numbers.now ≡ 8 }
    ensures { result ≡ number_for numbers.now s }
{
    numbers[usize::from(s.number())]
}

/// Returns by how much a metric is above that of state 0.
fn above_zero(metrics: &[i64; 8], s: State) -> i16
    requires metrics { IsMetrics metrics.now }
    requires near { AreNear 4096 (number_for metrics.now) }
    ensures { result ≡ number_for metrics.now s -ℤ number_for metrics.now zero_state }
{
    (number_of(metrics, s) - number_of(metrics, State::ZERO)) as i16
}

/// The soft values of a tail's input bits and parity bits.
#[derive(Clone, Copy)]
struct Tail {
    x: [Soft; 3],
    z: [Soft; 3],
}

impl Tail {
    /// Returns the branch metric of the bits of step `k` of the tail.
    fn step(&self, k: usize, bits: (Bit, Bit)) -> i64
        requires { k < 3 }
        ensures value { result ≡ if_zero bits.0 (at self.now.x k) +ℤ if_zero bits.1 (at self.now.z k) }
        ensures range { IsWithin 254 result }
    {
        earned(bits.0, self.x[k]) + earned(bits.1, self.z[k])
    }

    /// Returns the path metric of the tail from a state.
    fn from_state(&self, s: State) -> i64
        ensures value { result ≡ tail_sum self.now.x self.now.z s }
        ensures range { IsWithin 762 result }
    {
        let [first, second, third] = tail_path(s);
        self.step(0, first) + self.step(1, second) + self.step(2, third)
    }

    /// Returns the same from each state, in order of the states' numbers.
    fn numbers(&self) -> [i64; 8]
        ensures value { result ≡ border_of (tail_sum self.now.x self.now.z) }
        ensures range { IsBounded 762 (tail_sum self.now.x self.now.z) }
    {
        let (z, o) = (Bit::Zero, Bit::One);
        [
            self.from_state(State::from_bits(z, z, z)),
            self.from_state(State::from_bits(z, z, o)),
            self.from_state(State::from_bits(z, o, z)),
            self.from_state(State::from_bits(z, o, o)),
            self.from_state(State::from_bits(o, z, z)),
            self.from_state(State::from_bits(o, z, o)),
            self.from_state(State::from_bits(o, o, z)),
            self.from_state(State::from_bits(o, o, o)),
        ]
    }
}

/// Returns the value if the bit is 0, else 0.
fn if_zero(bit: Bit, value: i64) -> i64
    ensures { result ≡ if_zero bit value }
{
    match bit {
        Bit::Zero => value,
        Bit::One => 0,
    }
}

/// Returns the metric of a tail bit.
fn earned(bit: Bit, value: Soft) -> i64
    ensures value { result ≡ if_zero bit value }
    ensures range { IsWithin 127 result }
{
    if_zero(bit, i64::from(value.value()))
}
