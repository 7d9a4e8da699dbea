//! The metrics of N windows at a position, and the recursions from one position to the next.
ghost use Rattle.std.specs.Prelude.{◌≡◌, ◌<◌, ℕ, ◌+ℤ◌, ◌-ℤ◌, length};
ghost use Rattle.std.specs.Int.{int_max};
ghost use Rattle.model_receiver.specs.Borders.{at, number_for, relative};
ghost use Rattle.window_decode.specs.Recursions.{step_gain, forward, backward};
ghost use Rattle.window_rows.specs.Rows.{column};
ghost use Rattle.lock_step.specs.Vectors.{IsSmall, IsVector, AreMetrics, AreRelative};

use crate::lanes::{add, better, difference, greater, loaded, store};

/// Writes max(a + x, b + y) - base in each lane.
#[inline]
fn next<const N: usize>(
    a: &[i16; N],
    x: &[i16; N],
    b: &[i16; N],
    y: &[i16; N],
    base: &[i16; N],
    out: &mut [i16; N],
)
    requires first { IsVector N 6391 a.now × IsVector N 6391 x.now }
    requires second { IsVector N 6391 b.now × IsVector N 6391 y.now }
    requires base { IsVector N 12782 base.now }
    ensures long { length out.new ≡ N }
    ensures lanes { (t : ℕ) → t < N → at out.new t
        ≡ int_max (at a.now t +ℤ at x.now t) (at b.now t +ℤ at y.now t) -ℤ at base.now t }
{
    store(difference(better(a, x, b, y), loaded(base)), out);
}

/// Writes the forward metrics after a step, relative to those of state 0, from those before it. The branch
/// metrics are `x` for an input bit 0 and `p` for a parity bit 0.
#[inline]
pub fn forward<const N: usize>(
    m: &[[i16; N]; 8],
    x: &[i16; N],
    p: &[i16; N],
    after: &mut [[i16; N]; 8],
)
    requires before { AreRelative N m.now }
    requires input { IsSmall N 638 x.now }
    requires parity { IsSmall N 127 p.now }
    ensures shape { AreMetrics N after.new }
    ensures lanes { (t : ℕ) → t < N → column t after.new
        ≡ relative (forward (number_for (column t m.now)) (step_gain (at x.now t) (at p.now t))) }
{
    let none = [0; N];
    let mut both = [0; N];
    add(x, p, &mut both);
    let mut base = [0; N];
    greater(&m[0], &both, &m[1], &none, &mut base);
    next(&m[0], &both, &m[1], &none, &base, &mut after[0]);
    next(&m[2], p, &m[3], x, &base, &mut after[1]);
    next(&m[4], x, &m[5], p, &base, &mut after[2]);
    next(&m[6], &none, &m[7], &both, &base, &mut after[3]);
    next(&m[0], &none, &m[1], &both, &base, &mut after[4]);
    next(&m[2], x, &m[3], p, &base, &mut after[5]);
    next(&m[4], p, &m[5], x, &base, &mut after[6]);
    next(&m[6], &both, &m[7], &none, &base, &mut after[7]);
}

/// Writes the backward metrics before a step, relative to those of state 0, from those after it.
#[inline]
pub fn backward<const N: usize>(
    m: &[[i16; N]; 8],
    x: &[i16; N],
    p: &[i16; N],
    before: &mut [[i16; N]; 8],
)
    requires after { AreRelative N m.now }
    requires input { IsSmall N 638 x.now }
    requires parity { IsSmall N 127 p.now }
    ensures shape { AreMetrics N before.new }
    ensures lanes { (t : ℕ) → t < N → column t before.new
        ≡ relative (backward (number_for (column t m.now)) (step_gain (at x.now t) (at p.now t))) }
{
    let none = [0; N];
    let mut both = [0; N];
    add(x, p, &mut both);
    let mut base = [0; N];
    greater(&m[0], &both, &m[4], &none, &mut base);
    next(&m[0], &both, &m[4], &none, &base, &mut before[0]);
    next(&m[4], &both, &m[0], &none, &base, &mut before[1]);
    next(&m[5], x, &m[1], p, &base, &mut before[2]);
    next(&m[1], x, &m[5], p, &base, &mut before[3]);
    next(&m[2], x, &m[6], p, &base, &mut before[4]);
    next(&m[6], x, &m[2], p, &base, &mut before[5]);
    next(&m[7], &both, &m[3], &none, &base, &mut before[6]);
    next(&m[3], &both, &m[7], &none, &base, &mut before[7]);
}

/// Copies the metrics.
#[inline]
pub fn keep<const N: usize>(m: &[[i16; N]; 8], row: &mut [[i16; N]; 8])
    requires { AreRelative N m.now }
    ensures { row.new ≡ m.now }
{
    store(loaded(&m[0]), &mut row[0]);
    store(loaded(&m[1]), &mut row[1]);
    store(loaded(&m[2]), &mut row[2]);
    store(loaded(&m[3]), &mut row[3]);
    store(loaded(&m[4]), &mut row[4]);
    store(loaded(&m[5]), &mut row[5]);
    store(loaded(&m[6]), &mut row[6]);
    store(loaded(&m[7]), &mut row[7]);
}
