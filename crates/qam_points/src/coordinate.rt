//! One coordinate of a received point by itself: the values of its bits, before they are clamped. The nearest
//! levels with a 1 and with a 0 give a sum of pieces of the coordinate, so no level is tried, and nothing is
//! divided.
ghost use Rattle.std.specs.Prelude.{◌≡◌, ◌≤◌, ◌*◌, ◌-ℤ◌, pos, unsigned_abs};
ghost use Rattle.lte_bits.specs.Softs.{IsWithin, clamped};
ghost use Rattle.qam_points.specs.Coordinate.{coordinate_value};

/// Returns the coordinate, clamped to -bound to bound.
#[inline]
fn within(bound: u16, t: i32) -> i32
    requires bound { bound ≤ 762 }
    requires t { IsWithin 5000 t }
    ensures value { result ≡ clamped bound t }
    ensures range { IsWithin 762 result }
{
    let bound = i32::from(bound);
    t.clamp(-bound, bound)
}

/// Returns the value of the first of a coordinate's two bits, which is its sign.
#[inline]
pub fn first_of_two(t: i32, amp: u8) -> i32
    requires t { IsWithin 5000 t }
    requires amp { (1 ≤ amp) × (amp ≤ 127) }
    ensures value { result ≡ coordinate_value 2 amp t 0 }
    ensures range { IsWithin 12000 result }
{
    2 * t - within(2 * u16::from(amp), t)
}

/// Returns the value of the second of its two bits, which is its size.
#[inline]
pub fn second_of_two(t: i32, amp: u8) -> i32
    requires t { IsWithin 5000 t }
    requires amp { (1 ≤ amp) × (amp ≤ 127) }
    ensures value { result ≡ coordinate_value 2 amp t 1 }
    ensures range { IsWithin 12000 result }
{
    2 * i32::from(amp) - t.abs()
}

/// Returns the value of the first of a coordinate's three bits, which is its sign.
#[inline]
pub fn first_of_three(t: i32, amp: u8) -> i32
    requires t { IsWithin 5000 t }
    requires amp { (1 ≤ amp) × (amp ≤ 127) }
    ensures value { result ≡ coordinate_value 3 amp t 0 }
    ensures range { IsWithin 40000 result }
{
    let amp = u16::from(amp);
    4 * t - within(2 * amp, t) - within(4 * amp, t) - within(6 * amp, t)
}

/// Returns by how much its size is below the middle of all sizes. Its second and third bit have the values of
/// the two bits of a coordinate there.
#[inline]
pub fn rest_of_three(t: i32, amp: u8) -> i32
    requires t { IsWithin 4000 t }
    requires amp { (1 ≤ amp) × (amp ≤ 127) }
    ensures second { coordinate_value 2 amp result 0 ≡ coordinate_value 3 amp t 1 }
    ensures third { coordinate_value 2 amp result 1 ≡ coordinate_value 3 amp t 2 }
    ensures range { IsWithin 5000 result }
{
    4 * i32::from(amp) - t.abs()
}
