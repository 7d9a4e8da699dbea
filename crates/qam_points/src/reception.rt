//! Reception of points over the channel.
ghost use Rattle.std.specs.Prelude.{◌≡◌, ◌≤◌, ◌<◌, ◌+◌, ◌*◌, ◌+ℤ◌, ◌*ℤ◌, All, length, pos};
ghost use Rattle.lte_bits.specs.Softs.{IsWithin};
ghost use Rattle.qam_points.specs.Constellation.{IsSmall};
ghost use Rattle.qam_points.specs.Reception.{received_points, term_at};

use crate::point::Point;

/// Returns a coordinate scaled by an amplitude, plus a noise term.
#[inline]
fn coordinate(amp: u8, level: i32, term: i16) -> i32
    requires amp { amp ≤ 127 }
    requires level { IsWithin 7 level }
    requires term { IsWithin 437 term }
    ensures { result ≡ pos amp *ℤ level +ℤ term }
{
    i32::from(amp) * level + i32::from(term)
}

/// Returns the received point of symbol `s`.
#[inline]
fn received(sent: Point, amp: u8, terms: &[i16], s: usize) -> Point
    requires amp { amp ≤ 127 }
    requires small { IsSmall sent }
    requires near { All (IsWithin 437) terms.now }
    requires two { 2 * s + 1 < length terms.now }
    ensures { result ≡ record {
      i = pos amp *ℤ sent.i +ℤ term_at terms.now (2 * s);
      q = pos amp *ℤ sent.q +ℤ term_at terms.now (2 * s + 1);
    } }
{
    Point {
        i: coordinate(amp, sent.i, terms[2 * s]),
        q: coordinate(amp, sent.q, terms[2 * s + 1]),
    }
}

/// Replaces sent points by received ones: scales each by an amplitude, and adds a noise term to each
/// coordinate, two terms per point. Allocates nothing.
pub fn receive(points: &mut [Point], amp: u8, terms: &[i16])
    requires amp { amp ≤ 127 }
    requires small { All IsSmall points.old }
    requires near { All (IsWithin 437) terms.now }
    requires two { length terms.now ≡ 2 * length points.old }
    ensures { points.new ≡ received_points amp terms.now points.old }
{
    for s in 0..points.len() {
        points[s] = received(points[s], amp, terms, s);
    }
}
