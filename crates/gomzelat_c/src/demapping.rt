//! Soft values of received points.
ghost use Rattle.std.specs.Prelude.{◌≡◌, ◌≢◌, ◌≤◌, ◌*◌, All, IfOk, OnOk, OnErr, length};
ghost use Rattle.std.specs.Result.{result_err};
ghost use Rattle.qam_points.specs.Constellation.{IsModulationOrder};
ghost use Rattle.qam_points.specs.Demapping.{IsNearby};
ghost use Rattle.gomzelat_c.specs.Buffers.{with_front};
ghost use Rattle.gomzelat_c.specs.PointsInC.{demap_tests, demapped_values, in_the_plane};
ghost use Rattle.gomzelat_c.specs.Refusals.{IsDone, IsTold};
ghost use Rattle.gomzelat_c.specs.Tests.{first_failed};

use crate::buffers::write_softs;
use crate::points::{Point, accept_order, are_nearby, in_the_plane};
use crate::refusal::{Refusal, accept, told};
use lte_bits::{List, NoMemory, Soft};
use qam_points::demap;
use std::alloc::Global;

/// Tests the arguments of demapping.
fn accepted(points: &[Point], qm: u32, amp: u32, room: usize) -> Result<(), Refusal>
    ensures refused { result_err result ≡ first_failed (demap_tests points.now qm amp room) }
    ensures order { OnOk result (IsModulationOrder qm) }
    ensures amp { OnOk result ((1 ≤ amp) × (amp ≤ 127)) }
    ensures near { OnOk result (All (λ p. IsNearby (in_the_plane p)) points.now) }
    ensures room { OnOk result (qm * length points.now ≤ room) }
{
    accept_order(qm)?;
    accept((1..=127).contains(&amp), Refusal::BadAmp)?;
    accept(are_nearby(points), Refusal::BadPoints)?;
    accept(points.len() <= room / qm as usize, Refusal::ShortOutput)
}

/// Returns the soft values of points that are accepted.
fn demapped(alloc: Global, points: &[Point], qm: u32, amp: u32) -> Result<List<Soft>, NoMemory>
    requires order { IsModulationOrder qm }
    requires amp { (1 ≤ amp) × (amp ≤ 127) }
    requires near { All (λ p. IsNearby (in_the_plane p)) points.now }
    ensures softs { IfOk result (λ softs. softs ≡ demapped_values qm amp points.now) }
    ensures long { IfOk result (λ softs. length softs ≡ qm * length points.now) }
{
    let points = in_the_plane(alloc, points)?;
    demap(alloc, points.as_slice(), qm as u8, amp as u8)
}

/// Copies points, so that the points demapped are those tested, even if another thread writes to the caller's
/// points meanwhile.
fn copied(alloc: Global, points: &[Point]) -> Result<List<Point>, NoMemory>
    ensures { IfOk result (λ copies. copies ≡ points.now) }
{
    Ok(List::from_vec(Vec::from_slice(alloc, points)?))
}

fn write_demapped(
    alloc: Global,
    points: &[Point],
    qm: u32,
    amp: u32,
    out: &mut [i8],
) -> Result<(), Refusal>
    ensures answer { IsDone result (first_failed (demap_tests points.now qm amp (length out.old))) }
    ensures softs { OnOk result (out.new ≡ with_front (demapped_values qm amp points.now) out.old) }
    ensures kept { OnErr result (out.new ≡ out.old) }
{
    match copied(alloc, points) {
        Ok(points) => {
            accepted(points.as_slice(), qm, amp, out.len())?;
            let softs = demapped(alloc, points.as_slice(), qm, amp)?;
            write_softs(out, softs.as_slice());
            Ok(())
        }
        // A refusal comes before running out of memory.
        Err(no_memory) => {
            accepted(points, qm, amp, out.len())?;
            Err(no_memory.into())
        }
    }
}

/// Writes to the beginning of `out` the `qm` soft values, 2, 4 or 6, of each received point: the squared
/// distance to the nearest point whose bit is 1, less that to the nearest whose bit is 0, divided by four
/// times the amplitude, 1 to 127, rounded toward zero, and clamped. Coordinates are from -4000 to 4000.
/// Returns 0, or a `Refusal`'s number with nothing changed.
#[unsafe(no_mangle)]
pub extern "C" fn gomzelat_demap(
    alloc: Global,
    points: &[Point],
    qm: u32,
    amp: u32,
    out: &mut [i8],
) -> u32
    ensures answer { IsTold result (first_failed (demap_tests points.now qm amp (length out.old))) }
    ensures softs { result ≡ 0 → out.new
        ≡ with_front (demapped_values qm amp points.now) out.old }
    ensures kept { result ≢ 0 → out.new ≡ out.old }
{
    told(write_demapped(alloc, points, qm, amp, out))
}
