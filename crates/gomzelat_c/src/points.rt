//! Points as a caller has them.
ghost use Rattle.std.specs.Prelude.{◌≡◌, ◌≤◌, IfOk, OnOk, [], ◌∷◌, length, map};
ghost use Rattle.std.specs.List.{list_all};
ghost use Rattle.std.specs.Result.{result_err};
ghost use Rattle.qam_points.specs.Constellation.{IsModulationOrder};
ghost use Rattle.gomzelat_c.specs.Buffers.{with_front};
ghost use Rattle.gomzelat_c.specs.PointsInC.{for_the_caller, in_the_plane, is_nearby, order_test};
ghost use Rattle.gomzelat_c.specs.Tests.{first_failed};

use crate::refusal::{Refusal, accept};
use lte_bits::{List, NoMemory};
use std::alloc::Global;

/// A point of a constellation, or one that was received.
#[repr(C)]
#[derive(Clone, Copy, Debug)]
pub struct Point {
    pub i: i32,
    pub q: i32,
}

/// Tests how many bits a point has.
pub fn accept_order(qm: u32) -> Result<(), Refusal>
    ensures refused { result_err result ≡ first_failed (order_test qm ∷ []) }
    ensures order { OnOk result (IsModulationOrder qm) }
{
    accept(qm == 2 || qm == 4 || qm == 6, Refusal::BadQm)
}

/// Returns whether both coordinates of each point are from -4000 to 4000.
pub fn are_nearby(points: &[Point]) -> bool
    ensures { result ≡ list_all is_nearby points.now }
{
    points.iter().all(|point| (-4000..=4000).contains(&point.i)
        && (-4000..=4000).contains(&point.q))
}

/// Converts a caller's points to those of `qam_points`.
pub fn in_the_plane(alloc: Global, points: &[Point]) -> Result<List<qam_points::Point>, NoMemory>
    ensures { IfOk result (λ own. own ≡ map in_the_plane points.now) }
{
    let mut own = Vec::with_capacity(alloc, points.len())?;
    for point in points {
        own.push(qam_points::Point {
            i: point.i,
            q: point.q,
        })?;
    }
    Ok(List::from_vec(own))
}

/// Writes points to the beginning of a buffer.
pub fn write_points(buffer: &mut [Point], points: &[qam_points::Point])
    requires { length points.now ≤ length buffer.old }
    ensures { buffer.new ≡ with_front (map for_the_caller points.now) buffer.old }
{
    for (s, point) in points.iter().enumerate() {
        buffer[s] = Point {
            i: point.i,
            q: point.q,
        };
    }
}
