//! Extrinsic values and new cells, from the metrics before and after a position.
ghost use Rattle.std.specs.Prelude.{◌≡◌, ◌+ℤ◌};
ghost use Rattle.model_receiver.specs.Borders.{at};
ghost use Rattle.model_receiver.specs.Windows.{scaled};
ghost use Rattle.window_decode.specs.Recursions.{through};
ghost use Rattle.window_rows.specs.Rows.{column};
ghost use Rattle.lock_step.specs.Branches.{branches, best_along};
ghost use Rattle.lock_step.specs.Vectors.{IsSmall, AreLanes, AreRelative, better_by};

use crate::lanes::{self, better, difference, larger, loaded, scaled, store};
use lte_bits::Bit;
use std::simd::prelude::*;

/// Returns the branches with an input bit and a parity bit: the states before and after each.
#[inline]
fn branches(input: Bit, parity: Bit) -> [(usize, usize); 4]
    ensures { result ≡ branches input parity }
{
    match (input, parity) {
        (Bit::Zero, Bit::Zero) => [(0, 0), (1, 4), (6, 7), (7, 3)],
        (Bit::Zero, Bit::One) => [(2, 5), (3, 1), (4, 2), (5, 6)],
        (Bit::One, Bit::Zero) => [(2, 1), (3, 5), (4, 6), (5, 2)],
        (Bit::One, Bit::One) => [(0, 4), (1, 0), (6, 3), (7, 7)],
    }
}

/// Returns the best path metric over these branches, without their branch metrics.
#[inline]
fn best_along<const N: usize>(
    input: Bit,
    parity: Bit,
    alpha: &[[i16; N]; 8],
    beta: &[[i16; N]; 8],
) -> Simd<i16, N>
    requires alpha { AreRelative N alpha.now }
    requires beta { AreRelative N beta.now }
    ensures { AreLanes N 12782
        (λ t. best_along input parity (column t alpha.now) (column t beta.now)) result }
{
    let [a, b, c, d] = branches(input, parity);
    larger(
        better(&alpha[a.0], &beta[a.1], &alpha[b.0], &beta[b.1]),
        better(&alpha[c.0], &beta[c.1], &alpha[d.0], &beta[d.1]),
    )
}

/// Returns the best path metric with an input bit, without the metric of that bit.
#[inline]
fn best_with<const N: usize>(
    input: Bit,
    alpha: &[[i16; N]; 8],
    beta: &[[i16; N]; 8],
    p: &[i16; N],
) -> Simd<i16, N>
    requires alpha { AreRelative N alpha.now }
    requires beta { AreRelative N beta.now }
    requires parity { IsSmall N 127 p.now }
    ensures { AreLanes N 12909
        (λ t. through (column t alpha.now) (column t beta.now) (at p.now t) input) result }
{
    let zero = best_along(input, Bit::Zero, alpha, beta);
    let one = best_along(input, Bit::One, alpha, beta);
    larger(lanes::sum(zero, loaded(p)), one)
}

/// Returns the extrinsic value of a position: the best path metric with a 0 less that with a 1, both without
/// the metric of the input bit.
#[inline]
pub fn extrinsic<const N: usize>(
    alpha: &[[i16; N]; 8],
    beta: &[[i16; N]; 8],
    p: &[i16; N],
) -> Simd<i16, N>
    requires alpha { AreRelative N alpha.now }
    requires beta { AreRelative N beta.now }
    requires parity { IsSmall N 127 p.now }
    ensures { AreLanes N 25818 (λ t. better_by alpha.now beta.now (at p.now t) t) result }
{
    let zero = best_with(Bit::Zero, alpha, beta, p);
    let one = best_with(Bit::One, alpha, beta, p);
    difference(zero, one)
}

/// Writes the new cell of a position, and the sum of its extrinsic value and the metric of an input bit 0,
/// which is negative exactly if the decided bit is 1.
#[inline]
pub fn write_extrinsic<const N: usize>(
    alpha: &[[i16; N]; 8],
    beta: &[[i16; N]; 8],
    p: &[i16; N],
    x: &[i16; N],
    cell: &mut [i16; N],
    sum: &mut [i16; N],
)
    requires alpha { AreRelative N alpha.now }
    requires beta { AreRelative N beta.now }
    requires parity { IsSmall N 127 p.now }
    requires input { IsSmall N 638 x.now }
    ensures cell { AreLanes N 511
        (λ t. scaled (better_by alpha.now beta.now (at p.now t) t)) cell.new }
    ensures sum { AreLanes N 32767
        (λ t. better_by alpha.now beta.now (at p.now t) t +ℤ at x.now t) sum.new }
{
    let e = extrinsic(alpha, beta, p);
    store(scaled(e), cell);
    store(lanes::sum(e, loaded(x)), sum);
}
