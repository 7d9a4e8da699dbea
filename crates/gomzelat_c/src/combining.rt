//! Soft combining of transmissions, one at a time.
ghost use Rattle.std.specs.Prelude.{◌≡◌, ◌≢◌, ◌≤◌, IfOk, OnOk, OnErr, length, map};
ghost use Rattle.std.specs.Result.{result_err};
ghost use Rattle.lte_bits.specs.Softs.{clamped};
ghost use Rattle.model_sender.specs.CircularBuffer.{FitsIn};
ghost use Rattle.model_sender.specs.Segmentation.{plan_of};
ghost use Rattle.model_receiver.specs.SoftCells.{reception};
ghost use Rattle.soft_buffers.specs.Flat.{cell_count, combined};
ghost use Rattle.gomzelat_c.specs.Buffers.{with_front};
ghost use Rattle.gomzelat_c.specs.Refusals.{IsDone, IsTold};
ghost use Rattle.gomzelat_c.specs.Steps.{cells_after};
ghost use Rattle.gomzelat_c.specs.Tests.{combine_tests, first_failed};
ghost use Rattle.gomzelat_c.specs.Transmissions.{limit_in, transmission_of};

use crate::buffers::{softs_of, write_softs};
use crate::refusal::{Refusal, accept, told};
use crate::transmission::{Transmission, buffer_of};
use lte_bits::{List, NoMemory, Soft};
use rate_match::fits_buffer;
use rate_match::sends::Sending;
use segmentation::plan;
use segmentation::plans::Plan;
use soft_buffers::{HarqBuffers, cell_count};
use std::alloc::Global;

/// The arguments of a combining, all tested.
#[derive(Clone, Copy)]
struct Job {
    plan: Plan,
    sending: Sending,
}

/// Returns the job of combining `values` soft values of a transmission with `cells` soft cells of a payload
/// of `bytes` bytes, or the refusal.
fn accepted(
    bytes: usize,
    transmission: &Transmission,
    n_ir: u32,
    values: usize,
    cells: usize,
) -> Result<Job, Refusal>
    ensures refused { result_err result
        ≡ first_failed (combine_tests bytes transmission.now n_ir values cells) }
    ensures plan { IfOk result (λ job. job.plan ≡ plan_of bytes) }
    ensures sending { IfOk result
        (λ job. job.sending ≡ transmission_of (limit_in n_ir) transmission.now) }
    ensures fits { OnOk result (FitsIn (limit_in n_ir) (plan_of bytes).c (plan_of bytes).k_plus) }
    ensures version { OnOk result (transmission.now.rv ≤ 3) }
    ensures values { OnOk result (values ≡ transmission.now.g) }
    ensures cells { OnOk result (cell_count (plan_of bytes) ≤ cells) }
{
    let plan = plan(bytes)?;
    let buffer = buffer_of(n_ir);
    let sending = transmission.sending(buffer)?;
    accept(fits_buffer(buffer, &plan), Refusal::BadBuffer)?;
    accept(values == sending.m.g(), Refusal::BadValues)?;
    accept(cell_count(&plan) <= cells, Refusal::ShortCells)?;
    Ok(Job { plan, sending })
}

/// Returns the soft cells after a further transmission.
fn cells_with(alloc: Global, job: &Job, values: &[i8], cells: &[i8]) -> Result<List<Soft>, NoMemory>
    requires fits { FitsIn job.now.sending.m.limit job.now.plan.c job.now.plan.k_plus }
    requires version { job.now.sending.rv ≤ 3 }
    requires values { length values.now ≡ job.now.sending.m.g }
    requires cells { cell_count job.now.plan ≤ length cells.now }
    ensures cells { IfOk result (λ new. new ≡ combined job.now.plan
        (reception job.now.sending.m job.now.sending.rv (map (clamped 127) values.now))
        (map (clamped 127) cells.now)) }
    ensures long { IfOk result (λ new. length new ≡ cell_count job.now.plan) }
{
    let softs = softs_of(alloc, cells)?;
    let m = &job.sending.m;
    let mut buffers = HarqBuffers::from_cells(alloc, &job.plan, m.buffer(), softs.as_slice())?;
    let values = softs_of(alloc, values)?;
    buffers.combine(m, job.sending.rv, values.as_slice());
    buffers.cells(alloc)
}

fn combine(
    alloc: Global,
    bytes: usize,
    transmission: &Transmission,
    n_ir: u32,
    values: &[i8],
    cells: &mut [i8],
) -> Result<(), Refusal>
    ensures answer { IsDone result (first_failed
        (combine_tests bytes transmission.now n_ir (length values.now) (length cells.old))) }
    ensures cells { OnOk result (cells.new
        ≡ with_front (cells_after bytes transmission.now n_ir values.now cells.old) cells.old) }
    ensures kept { OnErr result (cells.new ≡ cells.old) }
{
    let job = accepted(bytes, transmission, n_ir, values.len(), cells.len())?;
    let new = cells_with(alloc, &job, values, cells)?;
    write_softs(cells, new.as_slice());
    Ok(())
}

/// Adds the G soft values of a further transmission to the soft cells of a payload of `bytes` bytes, 1 to
/// 18,722, at the beginning of `cells` (HARQ soft combining). All are 0 before the first transmission; -128
/// is taken as -127. `n_ir` is 0 for a full soft buffer, or N_IR. Returns 0, or a `Refusal`'s number with
/// nothing changed.
#[unsafe(no_mangle)]
pub extern "C" fn gomzelat_combine(
    alloc: Global,
    bytes: usize,
    transmission: Transmission,
    n_ir: u32,
    values: &[i8],
    cells: &mut [i8],
) -> u32
    ensures answer { IsTold result (first_failed
        (combine_tests bytes transmission n_ir (length values.now) (length cells.old))) }
    ensures cells { result ≡ 0 → cells.new
        ≡ with_front (cells_after bytes transmission n_ir values.now cells.old) cells.old }
    ensures kept { result ≢ 0 → cells.new ≡ cells.old }
{
    told(combine(alloc, bytes, &transmission, n_ir, values, cells))
}
