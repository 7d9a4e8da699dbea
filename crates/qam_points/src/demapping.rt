//! Soft values of received points.
ghost use Rattle.std.specs.Prelude.{◌≡◌, ◌<◌, ◌≤◌, ℕ, All, IfOk};
ghost use Rattle.lte_bits.specs.Softs.{IsWithin, clamped};
ghost use Rattle.qam_points.specs.Constellation.{IsModulationOrder};
ghost use Rattle.qam_points.specs.Demapping.{IsNearby, demapped, soft_values};

use crate::coordinate::{first_of_three, first_of_two, rest_of_three, second_of_two};
use crate::point::Point;
use lte_bits::{List, NoMemory, Soft};
use std::alloc::Global;

/// Returns a value, clamped.
#[inline]
fn soft(value: i32) -> Soft
    ensures { result ≡ clamped 127 value }
{
    Soft::from_i8(value.clamp(-127, 127) as i8)
}

/// Returns the soft values of a point of two bits.
fn two_values(y: Point) -> [Soft; 2]
    requires near { IsNearby y }
    ensures { (amp : ℕ) → 0 < amp → result ≡ soft_values 2 amp y }
{
    [soft(y.i), soft(y.q)]
}

/// Returns the soft values of a point of four bits.
fn four_values(y: Point, amp: u8) -> [Soft; 4]
    requires near { IsNearby y }
    requires amp { (1 ≤ amp) × (amp ≤ 127) }
    ensures { result ≡ soft_values 4 amp y }
{
    [
        soft(first_of_two(y.i, amp)),
        soft(first_of_two(y.q, amp)),
        soft(second_of_two(y.i, amp)),
        soft(second_of_two(y.q, amp)),
    ]
}

/// Returns the soft values of a point of six bits.
fn six_values(y: Point, amp: u8) -> [Soft; 6]
    requires near { IsNearby y }
    requires amp { (1 ≤ amp) × (amp ≤ 127) }
    ensures { result ≡ soft_values 6 amp y }
{
    let i = rest_of_three(y.i, amp);
    let q = rest_of_three(y.q, amp);
    [
        soft(first_of_three(y.i, amp)),
        soft(first_of_three(y.q, amp)),
        soft(first_of_two(i, amp)),
        soft(first_of_two(q, amp)),
        soft(second_of_two(i, amp)),
        soft(second_of_two(q, amp)),
    ]
}

/// Returns the max-log soft values of the `qm` bits, 2, 4 or 6, of each received point, sent with an
/// amplitude of 1 to 127; coordinates are from -4000 to 4000. A value is the squared distance to the nearest
/// point whose bit is 1, less that to the nearest whose bit is 0, divided by four times the amplitude,
/// rounded toward zero, and clamped to -127 to 127: positive if 0 is likelier. Allocates a byte for each.
pub fn demap(alloc: Global, points: &[Point], qm: u8, amp: u8) -> Result<List<Soft>, NoMemory>
    requires order { IsModulationOrder qm }
    requires amp { (1 ≤ amp) × (amp ≤ 127) }
    requires near { All IsNearby points.now }
    ensures { IfOk result (λ softs. softs ≡ demapped qm amp points.now) }
{
    let mut softs = Vec::with_capacity(alloc, points.len().saturating_mul(usize::from(qm)))?;
    for point in points {
        match qm {
            2 => softs.extend_from_slice(&two_values(*point))?,
            4 => softs.extend_from_slice(&four_values(*point, amp))?,
            _ => softs.extend_from_slice(&six_values(*point, amp))?,
        }
    }
    Ok(List::from_vec(softs))
}
