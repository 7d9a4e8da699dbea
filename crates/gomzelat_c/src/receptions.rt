//! Receptions.
ghost use Rattle.std.specs.Prelude.{◌≡◌, ◌≢◌, ◌≤◌, IfOk, OnOk, OnErr, length, map};
ghost use Rattle.std.specs.Result.{result_err};
ghost use Rattle.lte_bits.specs.Softs.{clamped};
ghost use Rattle.model_sender.specs.CircularBuffer.{FitsIn};
ghost use Rattle.model_sender.specs.Segmentation.{plan_of};
ghost use Rattle.model_receiver.specs.TransportBlocks.{outcome};
ghost use Rattle.rate_match.specs.Sendings.{common};
ghost use Rattle.block_receive.specs.Receptions.{receptions, value_count};
ghost use Rattle.gomzelat_c.specs.Receiving.{HasRoom, received, summary, with_payload};
ghost use Rattle.gomzelat_c.specs.Refusals.{IsDone, IsTold};
ghost use Rattle.gomzelat_c.specs.Transmissions.{limit_in, transmissions_of};
ghost use Rattle.gomzelat_c.specs.Tests.{first_failed, test_receiver, reception_tests};

use crate::buffers::{softs_of, write_bytes};
use crate::receiver::{Outcome, Receiver};
use crate::refusal::{Refusal, accept, told};
use crate::series::{bit_count, series_of};
use crate::transmission::{Transmission, buffer_of};
use block_receive::{DecoderLimits, Task};
use lte_bits::NoMemory;
use model_receiver::TbOutcome;
use rate_match::{Sends, fits_buffer};
use segmentation::plans::Plan;
use std::alloc::Global;

/// The arguments of a reception, all tested.
#[derive(Clone, Copy)]
struct Job {
    task: Task,
    sends: Sends,
}

/// Returns the limits of a receiver for transmissions of `bits` bits, from `values` soft values and with room
/// for `room` bytes, or the refusal.
fn limits(
    plan: &Plan,
    bits: usize,
    receiver: &Receiver,
    values: usize,
    room: usize,
) -> Result<DecoderLimits, Refusal>
    requires plan { plan.now ≡ plan_of plan.now.bytes }
    ensures refused { result_err result
        ≡ first_failed (test_receiver plan.now.bytes bits receiver.now values room) }
    ensures limits { IfOk result (λ limits. limits
        ≡ record { windows = receiver.now.windows; limit = receiver.now.limit }) }
    ensures fits { OnOk result (FitsIn (limit_in receiver.now.n_ir) plan.now.c plan.now.k_plus) }
    ensures values { OnOk result (values ≡ bits) }
    ensures room { OnOk result (plan.now.bytes ≤ room) }
{
    accept(
        fits_buffer(buffer_of(receiver.n_ir), plan),
        Refusal::BadBuffer,
    )?;
    accept((1..=64).contains(&receiver.windows), Refusal::BadWindows)?;
    accept((1..=16).contains(&receiver.limit), Refusal::BadLimit)?;
    accept(values == bits, Refusal::BadValues)?;
    accept(plan.bytes <= room, Refusal::ShortOutput)?;
    Ok(DecoderLimits {
        windows: receiver.windows as usize,
        limit: receiver.limit as usize,
    })
}

/// Returns the job of receiving a payload of `bytes` bytes from `values` soft values, with room for `room`
/// bytes, or the refusal.
fn accepted(
    bytes: usize,
    transmissions: &[Transmission],
    receiver: &Receiver,
    values: usize,
    room: usize,
) -> Result<Job, Refusal>
    ensures refused { result_err result
        ≡ first_failed (reception_tests bytes transmissions.now receiver.now values room) }
    ensures plan { IfOk result (λ job. job.task.plan ≡ plan_of bytes) }
    ensures sends { IfOk result
        (λ job. job.sends ≡ transmissions_of (limit_in receiver.now.n_ir) transmissions.now) }
    ensures limits { IfOk result (λ job. job.task.limits
        ≡ record { windows = receiver.now.windows; limit = receiver.now.limit }) }
    ensures fits { IfOk result (λ job. FitsIn (common job.sends).limit job.task.plan.c job.task.plan.k_plus) }
    ensures values { IfOk result (λ job. values ≡ value_count job.sends) }
    ensures room { OnOk result (bytes ≤ room) }
{
    let series = series_of(bytes, transmissions, buffer_of(receiver.n_ir))?;
    let limits = limits(
        &series.plan,
        bit_count(&series.sends),
        receiver,
        values,
        room,
    )?;
    Ok(Job {
        task: Task {
            plan: series.plan,
            limits,
        },
        sends: series.sends,
    })
}

/// Returns the outcome of the transmissions of a job, from their soft values.
fn outcome_of(alloc: Global, job: &Job, values: &[i8]) -> Result<TbOutcome, NoMemory>
    requires fits { FitsIn (common job.now.sends).limit job.now.task.plan.c job.now.task.plan.k_plus }
    requires values { length values.now ≡ value_count job.now.sends }
    ensures { IfOk result (λ o. o ≡ outcome job.now.task.plan job.now.task.limits
        (receptions job.now.sends (map (clamped 127) values.now))) }
{
    let softs = softs_of(alloc, values)?;
    job.task.receive_alone(alloc, &job.sends, softs.as_slice())
}

/// Writes the payload to the beginning of a buffer, where it was delivered.
fn write_payload(payload: &mut [u8], outcome: &TbOutcome)
    requires { HasRoom outcome.now (length payload.old) }
    ensures { payload.new ≡ with_payload outcome.now payload.old }
{
    if let TbOutcome::Delivered { bytes, .. } = outcome {
        write_bytes(payload, bytes.as_slice());
    }
}

fn receive(
    alloc: Global,
    bytes: usize,
    transmissions: &[Transmission],
    receiver: &Receiver,
    values: &[i8],
    payload: &mut [u8],
    outcome: &mut Outcome,
) -> Result<(), Refusal>
    ensures answer { IsDone result (first_failed (reception_tests bytes transmissions.now receiver.now
        (length values.now) (length payload.old))) }
    ensures outcome { OnOk result (outcome.new
        ≡ summary (received bytes transmissions.now receiver.now values.now)) }
    ensures payload { OnOk result (payload.new
        ≡ with_payload (received bytes transmissions.now receiver.now values.now) payload.old) }
    ensures outcome_kept { OnErr result (outcome.new ≡ outcome.old) }
    ensures payload_kept { OnErr result (payload.new ≡ payload.old) }
{
    let job = accepted(bytes, transmissions, receiver, values.len(), payload.len())?;
    let received = outcome_of(alloc, &job, values)?;
    write_payload(payload, &received);
    *outcome = Outcome::of(&received);
    Ok(())
}

/// Receives a payload of `bytes` bytes, 1 to 18,722, from one to eight transmissions: `values` has the G soft
/// values of each, one transmission after the other, positive if 0 is likelier. Writes the outcome to
/// `outcome`, and the payload to the beginning of `payload` if it was delivered; else `payload` is unchanged.
/// Returns 0, or a `Refusal`'s number with nothing changed.
#[unsafe(no_mangle)]
pub extern "C" fn gomzelat_receive(
    alloc: Global,
    bytes: usize,
    transmissions: &[Transmission],
    receiver: Receiver,
    values: &[i8],
    payload: &mut [u8],
    outcome: &mut Outcome,
) -> u32
    ensures answer { IsTold result (first_failed (reception_tests bytes transmissions.now receiver
        (length values.now) (length payload.old))) }
    ensures outcome { result ≡ 0 → outcome.new
        ≡ summary (received bytes transmissions.now receiver values.now) }
    ensures payload { result ≡ 0 → payload.new
        ≡ with_payload (received bytes transmissions.now receiver values.now) payload.old }
    ensures outcome_kept { result ≢ 0 → outcome.new ≡ outcome.old }
    ensures payload_kept { result ≢ 0 → payload.new ≡ payload.old }
{
    told(receive(
        alloc,
        bytes,
        transmissions,
        &receiver,
        values,
        payload,
        outcome,
    ))
}
