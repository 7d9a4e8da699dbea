//! Bits as points.
ghost use Rattle.std.specs.Prelude.{◌≡◌, ◌%◌, ◌*◌, IfOk, length, pos, ◌-ℤ◌, ◌*ℤ◌};
ghost use Rattle.lte_bits.specs.Softs.{IsWithin};
ghost use Rattle.qam_points.specs.Constellation.{IsModulationOrder, mapped, point, sign};

use crate::point::Point;
use lte_bits::{Bit, List, NoMemory};
use std::alloc::Global;

/// Returns 1 for a 0, and -1 for a 1.
fn sign(bit: Bit) -> i32
    ensures value { result ≡ sign bit }
    ensures range { IsWithin 1 result }
{
    match bit {
        Bit::Zero => 1,
        Bit::One => -1,
    }
}

/// Returns a coordinate of two bits.
fn level_of_two(a: Bit, b: Bit) -> i32
    ensures value { result ≡ sign a *ℤ (pos 2 -ℤ sign b) }
    ensures range { IsWithin 3 result }
{
    sign(a) * (2 - sign(b))
}

/// Returns a coordinate of three bits.
fn level_of_three(a: Bit, b: Bit, c: Bit) -> i32
    ensures { result ≡ sign a *ℤ (pos 4 -ℤ sign b *ℤ (pos 2 -ℤ sign c)) }
{
    sign(a) * (4 - level_of_two(b, c))
}

/// Returns the point of 2, 4 or 6 bits.
fn point(bits: &[Bit]) -> Point
    requires { IsModulationOrder (length bits.now) }
    ensures { result ≡ point bits.now }
{
    match bits {
        [a, b] => Point {
            i: sign(*a),
            q: sign(*b),
        },
        [a, b, c, d] => Point {
            i: level_of_two(*a, *c),
            q: level_of_two(*b, *d),
        },
        [a, b, c, d, e, f] => Point {
            i: level_of_three(*a, *c, *e),
            q: level_of_three(*b, *d, *f),
        },
        _ => unreachable!(),
    }
}

/// Returns the points of bits, `qm` bits each: 2, 4 or 6, which divides their number (36.211, 7.1.2 to
/// 7.1.4). Allocates the points.
pub fn map(alloc: Global, bits: &[Bit], qm: u8) -> Result<List<Point>, NoMemory>
    requires order { IsModulationOrder qm }
    requires whole { length bits.now % qm ≡ 0 }
    ensures { IfOk result (λ points. points ≡ mapped qm bits.now) }
{
    let width = usize::from(qm);
    let count = bits.len() / width;
    let mut points = Vec::with_capacity(alloc, count)?;
    for s in 0..count {
        let rest = &bits[width * s..];
        points.push(point(&rest[..width]))?;
    }
    Ok(List::from_vec(points))
}
