//! The forward and backward recursions over a window's positions, and the extrinsic values.
ghost use Rattle.std.specs.Prelude.{◌≡◌, ◌+ℤ◌, ◌-ℤ◌};
ghost use Rattle.lte_bits.specs.Softs.{IsWithin};
ghost use Rattle.lte_bits.specs.declared.bit.Bit.TheVariants.{Zero, One};
ghost use Rattle.model_sender.specs.ConstituentCoder.{next, parity};
ghost use Rattle.model_receiver.specs.Borders.{border_of, number_for, if_zero, relative};
ghost use Rattle.window_decode.specs.Recursions.{step_gain, way_in, forward, backward, through};
ghost use Rattle.window_decode.specs.Lanes.{IsRelative};

use crate::lanes::{
    above_zero, after_by, all, before_by, greatest, input_by, larger, parity_of, sum,
};
use crate::step::Step;
use lte_bits::Bit;
use std::simd::prelude::*;

/// Returns for each state the forward metric along the branch from its predecessor whose oldest value is
/// `oldest`.
#[inline]
fn alpha_branch(oldest: Bit, before: i16x8, step: Step) -> i16x8
    requires { IsRelative before }
    ensures { result ≡ border_of
        (λ s. way_in (number_for before) (step_gain step.input step.parity) s oldest) }
{
    let gain = sum(input_by(oldest, step.input), parity_of(oldest, step.parity));
    sum(before_by(oldest, before), gain)
}

/// Returns the forward metrics after a step, relative to that of state 0, from those before it.
#[inline]
pub fn forward(before: i16x8, step: Step) -> i16x8
    requires { IsRelative before }
    ensures { result ≡ relative (forward (number_for before) (step_gain step.input step.parity)) }
{
    let zero = alpha_branch(Bit::Zero, before, step);
    let one = alpha_branch(Bit::One, before, step);
    let next = larger(zero, one);
    above_zero(next)
}

/// Returns for each state the backward metric of its successor by an input, plus the parity metric.
#[inline]
fn beta_branch(input: Bit, after: i16x8, value: i16) -> i16x8
    requires after { IsRelative after }
    requires value { IsWithin 127 value }
    ensures { result
        ≡ border_of (λ s. if_zero (parity s input) value +ℤ number_for after (next s input)) }
{
    sum(parity_of(input, value), after_by(input, after))
}

/// Returns the backward metrics before a step, relative to that of state 0, from those after it.
#[inline]
pub fn backward(after: i16x8, step: Step) -> i16x8
    requires { IsRelative after }
    ensures { result ≡ relative (backward (number_for after) (step_gain step.input step.parity)) }
{
    let zero = sum(all(step.input), beta_branch(Bit::Zero, after, step.parity));
    let one = beta_branch(Bit::One, after, step.parity);
    above_zero(larger(zero, one))
}

/// Returns the extrinsic value of a position: the best path metric with a 0 less that with a 1, both without
/// the metric of the input bit.
#[inline]
pub fn extrinsic(before: i16x8, after: i16x8, value: i16) -> i32
    requires before { IsRelative before }
    requires after { IsRelative after }
    requires value { IsWithin 127 value }
    ensures value { result ≡ through before after value Zero -ℤ through before after value One }
    ensures range { IsWithin 25818 result }
{
    let zero = greatest(sum(before, beta_branch(Bit::Zero, after, value)));
    let one = greatest(sum(before, beta_branch(Bit::One, after, value)));
    i32::from(zero) - i32::from(one)
}
