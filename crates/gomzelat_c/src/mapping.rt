//! Bits as points (36.211 7.1).
ghost use Rattle.std.specs.Prelude.{◌≡◌, ◌≢◌, ◌≤◌, ◌/◌, ◌%◌, OnOk, OnErr, length};
ghost use Rattle.std.specs.Result.{result_err};
ghost use Rattle.qam_points.specs.Constellation.{IsModulationOrder};
ghost use Rattle.gomzelat_c.specs.Buffers.{with_front};
ghost use Rattle.gomzelat_c.specs.PointsInC.{map_tests, mapped_points};
ghost use Rattle.gomzelat_c.specs.Refusals.{IsDone, IsTold};
ghost use Rattle.gomzelat_c.specs.Tests.{byte_count, first_failed};

use crate::buffers::bits_of;
use crate::points::{Point, accept_order, write_points};
use crate::refusal::{Refusal, accept, told};
use qam_points::map;
use std::alloc::Global;

/// Tests the arguments of mapping.
fn accepted(count: usize, bytes: usize, qm: u32, room: usize) -> Result<(), Refusal>
    ensures refused { result_err result ≡ first_failed (map_tests count bytes qm room) }
    ensures order { OnOk result (IsModulationOrder qm) }
    ensures bits { OnOk result (byte_count count ≤ bytes) }
    ensures whole { OnOk result (count % qm ≡ 0) }
    ensures room { OnOk result (count / qm ≤ room) }
{
    accept_order(qm)?;
    accept(count.div_ceil(8) <= bytes, Refusal::BadBits)?;
    let width = qm as usize;
    accept(count % width == 0, Refusal::BadPoints)?;
    accept(count / width <= room, Refusal::ShortOutput)
}

fn write_mapped(
    alloc: Global,
    bits: &[u8],
    count: usize,
    qm: u32,
    points: &mut [Point],
) -> Result<(), Refusal>
    ensures answer { IsDone result (first_failed
        (map_tests count (length bits.now) qm (length points.old))) }
    ensures points { OnOk result (points.new
        ≡ with_front (mapped_points qm count bits.now) points.old) }
    ensures kept { OnErr result (points.new ≡ points.old) }
{
    accepted(count, bits.len(), qm, points.len())?;
    let bits = bits_of(alloc, count, bits)?;
    let mapped = map(alloc, bits.as_slice(), qm as u8)?;
    write_points(points, mapped.as_slice());
    Ok(())
}

/// Maps the first `count` bits of `bits`, packed most significant bit first, to points at the beginning of
/// `points`: `qm` bits a point, 2, 4 or 6, of which `count` is a multiple. Coordinates are odd, from -7 to 7.
/// Returns 0, or a `Refusal`'s number with nothing changed.
#[unsafe(no_mangle)]
pub extern "C" fn gomzelat_map(
    alloc: Global,
    bits: &[u8],
    count: usize,
    qm: u32,
    points: &mut [Point],
) -> u32
    ensures answer { IsTold result (first_failed
        (map_tests count (length bits.now) qm (length points.old))) }
    ensures points { result ≡ 0 → points.new
        ≡ with_front (mapped_points qm count bits.now) points.old }
    ensures kept { result ≢ 0 → points.new ≡ points.old }
{
    told(write_mapped(alloc, bits, count, qm, points))
}
