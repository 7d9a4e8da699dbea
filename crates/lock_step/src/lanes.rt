//! Operations on a number of 16 bits for each of N windows, as lanes of one vector.
ghost use Rattle.std.specs.Prelude.{◌≡◌, ℕ, pos, ◌+ℤ◌, ◌-ℤ◌, ◌*ℤ◌, int_div};
ghost use Rattle.std.specs.Int.{int_max};
ghost use Rattle.lte_bits.specs.Softs.{IsWithin, clamped};
ghost use Rattle.model_receiver.specs.Borders.{at};
ghost use Rattle.model_receiver.specs.Windows.{scaled};
ghost use Rattle.lock_step.specs.Vectors.{IsSmall, IsVector, AreLanes};

use std::simd::prelude::*;

/// Loads the numbers of a row.
#[inline]
pub fn loaded<const N: usize>(row: &[i16; N]) -> Simd<i16, N>
    requires { IsVector N 32767 row.now }
    ensures { result ≡ row.now }
{
    Simd::from_slice(row)
}

/// Stores the numbers in a row.
#[inline]
pub fn store<const N: usize>(lanes: Simd<i16, N>, row: &mut [i16; N])
    requires { IsVector N 32767 lanes }
    ensures { row.new ≡ lanes.entry }
{
    lanes.copy_to_slice(row);
}

/// Returns the sums of two numbers.
#[inline]
pub fn sum<const N: usize>(a: Simd<i16, N>, b: Simd<i16, N>) -> Simd<i16, N>
    requires first { IsVector N 32767 a }
    requires second { IsVector N 32767 b }
    requires fits { (t : ℕ) → IsWithin 32767 (at a t +ℤ at b t) }
    ensures { AreLanes N 32767 (λ t. at a.entry t +ℤ at b.entry t) result }
{
    a.strict_add(b)
}

/// Returns the differences of two numbers.
#[inline]
pub fn difference<const N: usize>(a: Simd<i16, N>, b: Simd<i16, N>) -> Simd<i16, N>
    requires first { IsVector N 32767 a }
    requires second { IsVector N 32767 b }
    requires fits { (t : ℕ) → IsWithin 32767 (at a t -ℤ at b t) }
    ensures { AreLanes N 32767 (λ t. at a.entry t -ℤ at b.entry t) result }
{
    a.strict_sub(b)
}

/// Returns the greater of two numbers.
#[inline]
pub fn larger<const N: usize>(a: Simd<i16, N>, b: Simd<i16, N>) -> Simd<i16, N>
    requires first { IsVector N 32767 a }
    requires second { IsVector N 32767 b }
    ensures { AreLanes N 32767 (λ t. int_max (at a.entry t) (at b.entry t)) result }
{
    a.simd_max(b)
}

/// Returns the numbers, clamped to -682..=682.
#[inline]
fn near<const N: usize>(a: Simd<i16, N>) -> Simd<i16, N>
    requires { IsVector N 32767 a }
    ensures { AreLanes N 682 (λ t. clamped 682 (at a.entry t)) result }
{
    a.simd_min(Simd::splat(682)).simd_max(Simd::splat(-682))
}

/// Returns three quarters of the numbers, rounded toward zero.
#[inline]
fn three_quarters<const N: usize>(a: Simd<i16, N>) -> Simd<i16, N>
    requires { IsVector N 682 a }
    ensures { AreLanes N 511 (λ t. int_div (at a.entry t *ℤ pos 3) (pos 4)) result }
{
    a.strict_mul(Simd::splat(3)) / Simd::splat(4)
}

/// Returns three quarters of the numbers, rounded toward zero and clamped to -511..=511.
#[inline]
pub fn scaled<const N: usize>(a: Simd<i16, N>) -> Simd<i16, N>
    requires { IsVector N 32767 a }
    ensures { AreLanes N 511 (λ t. scaled (at a.entry t)) result }
{
    // 682 * 3 / 4 is 511.
    three_quarters(near(a))
}

/// Returns the greater of two sums.
#[inline]
pub fn better<const N: usize>(
    a: &[i16; N],
    x: &[i16; N],
    b: &[i16; N],
    y: &[i16; N],
) -> Simd<i16, N>
    requires first { IsVector N 6391 a.now × IsVector N 6391 x.now }
    requires second { IsVector N 6391 b.now × IsVector N 6391 y.now }
    ensures { AreLanes N 12782
        (λ t. int_max (at a.now t +ℤ at x.now t) (at b.now t +ℤ at y.now t)) result }
{
    larger(sum(loaded(a), loaded(x)), sum(loaded(b), loaded(y)))
}

/// Writes the greater of two sums.
#[inline]
pub fn greater<const N: usize>(
    a: &[i16; N],
    x: &[i16; N],
    b: &[i16; N],
    y: &[i16; N],
    out: &mut [i16; N],
)
    requires first { IsVector N 6391 a.now × IsVector N 6391 x.now }
    requires second { IsVector N 6391 b.now × IsVector N 6391 y.now }
    ensures { AreLanes N 12782
        (λ t. int_max (at a.now t +ℤ at x.now t) (at b.now t +ℤ at y.now t)) out.new }
{
    store(better(a, x, b, y), out);
}

/// Writes the sums of small numbers.
#[inline]
pub fn add<const N: usize>(a: &[i16; N], b: &[i16; N], out: &mut [i16; N])
    requires first { IsSmall N 638 a.now }
    requires second { IsSmall N 511 b.now }
    ensures { AreLanes N 1149 (λ t. at a.now t +ℤ at b.now t) out.new }
{
    store(sum(loaded(a), loaded(b)), out);
}
