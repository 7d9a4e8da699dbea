//! Code blocks that are decoded from soft cells, one try at a time.
ghost use Rattle.std.specs.Prelude.{◌≡◌, ◌≢◌, ◌≤◌, IfOk, OnOk, OnErr, length, map};
ghost use Rattle.std.specs.Result.{result_err};
ghost use Rattle.model_sender.specs.CircularBuffer.{FitsIn};
ghost use Rattle.model_sender.specs.Segmentation.{plan_of};
ghost use Rattle.model_receiver.specs.TransportBlocks.{held_after, payload_of};
ghost use Rattle.rate_match.specs.Matching.{limit_of};
ghost use Rattle.segmentation.specs.Shape.{AreBlocksOf};
ghost use Rattle.soft_buffers.specs.Flat.{cell_count};
ghost use Rattle.block_receive.specs.Tries.{tried_from};
ghost use Rattle.gomzelat_c.specs.Buffers.{with_front};
ghost use Rattle.gomzelat_c.specs.Refusals.{IsDone, IsTold};
ghost use Rattle.gomzelat_c.specs.State.{bit_count, cells_of, digits_of, entry_of, kept};
ghost use Rattle.gomzelat_c.specs.Steps.{delivery, limits_of, results_after};
ghost use Rattle.gomzelat_c.specs.Tests.{decode_tests, first_failed};
ghost use Rattle.gomzelat_c.specs.Transmissions.{limit_in};

use crate::buffers::{softs_of, write_bytes};
use crate::receiver::Receiver;
use crate::refusal::{Refusal, accept, told};
use crate::state::{CodeBlock, bit_count, digits_of, entries_of, kept, write_entries};
use crate::transmission::buffer_of;
use block_receive::{DecoderLimits, Task, carried_by, try_alone};
use lte_bits::{List, NoMemory};
use model_receiver::CodeResult;
use rate_match::{Buffer, fits_buffer};
use segmentation::plan;
use soft_buffers::{HarqBuffers, cell_count};
use std::alloc::Global;

/// The sizes of a caller's buffers: soft cells, entries for code blocks, bytes for their bits, and bytes for
/// the payload.
#[derive(Clone, Copy)]
pub struct Rooms {
    pub cells: usize,
    pub blocks: usize,
    pub bits: usize,
    pub payload: usize,
}

/// Returns the task of decoding a payload of `bytes` bytes, or the refusal.
fn accepted(bytes: usize, receiver: &Receiver, rooms: &Rooms) -> Result<Task, Refusal>
    ensures refused { result_err result ≡ first_failed (decode_tests bytes receiver.now rooms.now) }
    ensures plan { IfOk result (λ task. task.plan ≡ plan_of bytes) }
    ensures limits { IfOk result (λ task. task.limits ≡ limits_of receiver.now) }
    ensures fits { OnOk result (FitsIn (limit_in receiver.now.n_ir) (plan_of bytes).c (plan_of bytes).k_plus) }
    ensures payload { OnOk result (bytes ≤ rooms.now.payload) }
    ensures cells { OnOk result (cell_count (plan_of bytes) ≤ rooms.now.cells) }
    ensures blocks { OnOk result ((plan_of bytes).c ≤ rooms.now.blocks) }
    ensures bits { OnOk result (bit_count (plan_of bytes) ≤ rooms.now.bits) }
{
    let plan = plan(bytes)?;
    accept(
        fits_buffer(buffer_of(receiver.n_ir), &plan),
        Refusal::BadBuffer,
    )?;
    accept((1..=64).contains(&receiver.windows), Refusal::BadWindows)?;
    accept((1..=16).contains(&receiver.limit), Refusal::BadLimit)?;
    accept(bytes <= rooms.payload, Refusal::ShortOutput)?;
    accept(cell_count(&plan) <= rooms.cells, Refusal::ShortCells)?;
    accept(plan.c <= rooms.blocks, Refusal::ShortBlocks)?;
    accept(bit_count(&plan) <= rooms.bits, Refusal::ShortBits)?;
    Ok(Task {
        plan,
        limits: DecoderLimits {
            windows: receiver.windows as usize,
            limit: receiver.limit as usize,
        },
    })
}

/// Returns the results of a try from soft cells, after those of the try before.
fn results_of(
    alloc: Global,
    task: &Task,
    buffer: Buffer,
    cells: &[i8],
    last: Vec<CodeResult>,
) -> Result<Vec<CodeResult>, NoMemory>
    requires fits { FitsIn (limit_of buffer) task.now.plan.c task.now.plan.k_plus }
    requires cells { cell_count task.now.plan ≤ length cells.now }
    requires last { AreBlocksOf task.now.plan (map (λ x. x.block) last.items) }
    ensures results { IfOk result (λ results. results.items ≡ tried_from task.now.plan
        task.now.limits (cells_of task.now.plan cells.now) (held_after last.items)) }
    ensures shaped { IfOk result (λ results. AreBlocksOf task.now.plan
        (map (λ x. x.block) results.items)) }
{
    let softs = softs_of(alloc, cells)?;
    let buffers = HarqBuffers::from_cells(alloc, &task.plan, buffer, softs.as_slice())?;
    try_alone(alloc, task, &buffers, last)
}

/// The outcome of a try.
#[derive(Drop)]
struct Left {
    entries: List<CodeBlock>,
    digits: List<u8>,
    payload: List<u8>,
    delivered: u32,
}

/// Returns the outcome of a try with these results.
fn left_by(alloc: Global, results: Vec<CodeResult>, task: &Task) -> Result<Left, NoMemory>
    requires { AreBlocksOf task.now.plan (map (λ x. x.block) results.items) }
    ensures entries { IfOk result (λ left. left.entries ≡ map entry_of results.items) }
    ensures digits { IfOk result (λ left. left.digits ≡ digits_of results.items) }
    ensures payload { IfOk result (λ left. left.payload ≡ payload_of task.now.plan results.items) }
    ensures delivered { IfOk result (λ left. left.delivered ≡ delivery task.now.plan results.items) }
{
    let entries = entries_of(alloc, results.as_slice())?;
    let digits = digits_of(alloc, results.as_slice())?;
    let carried = carried_by(alloc, results, &task.plan)?;
    Ok(Left {
        entries,
        digits,
        payload: carried.payload,
        delivered: if carried.delivered { 1 } else { 0 },
    })
}

fn decode(
    alloc: Global,
    bytes: usize,
    receiver: &Receiver,
    cells: &[i8],
    blocks: &mut [CodeBlock],
    bits: &mut [u8],
    payload: &mut [u8],
    delivered: &mut u32,
) -> Result<(), Refusal>
    ensures answer { IsDone result (first_failed (decode_tests bytes receiver.now (record {
      cells = length cells.now;
      blocks = length blocks.old;
      bits = length bits.old;
      payload = length payload.old;
    }))) }
    ensures blocks { OnOk result (blocks.new ≡ with_front (map entry_of
        (results_after bytes receiver.now cells.now blocks.old bits.old)) blocks.old) }
    ensures bits { OnOk result (bits.new ≡ with_front (digits_of
        (results_after bytes receiver.now cells.now blocks.old bits.old)) bits.old) }
    ensures payload { OnOk result (payload.new ≡ with_front (payload_of (plan_of bytes)
        (results_after bytes receiver.now cells.now blocks.old bits.old)) payload.old) }
    ensures delivered { OnOk result (delivered.new ≡ delivery (plan_of bytes)
        (results_after bytes receiver.now cells.now blocks.old bits.old)) }
    ensures blocks_kept { OnErr result (blocks.new ≡ blocks.old) }
    ensures bits_kept { OnErr result (bits.new ≡ bits.old) }
    ensures payload_kept { OnErr result (payload.new ≡ payload.old) }
    ensures delivered_kept { OnErr result (delivered.new ≡ delivered.old) }
{
    let rooms = Rooms {
        cells: cells.len(),
        blocks: blocks.len(),
        bits: bits.len(),
        payload: payload.len(),
    };
    let task = accepted(bytes, receiver, &rooms)?;
    let last = kept(alloc, &task.plan, blocks, bits)?;
    let results = results_of(alloc, &task, buffer_of(receiver.n_ir), cells, last)?;
    let left = left_by(alloc, results, &task)?;
    write_entries(blocks, left.entries.as_slice());
    write_bytes(bits, left.digits.as_slice());
    write_bytes(payload, left.payload.as_slice());
    *delivered = left.delivered;
    Ok(())
}

/// Decodes the code blocks of a payload of `bytes` bytes, 1 to 18,722, from the soft cells at the beginning
/// of `cells`. A block that has passed by its entry in `blocks` isn't decoded again, but is taken from
/// `bits`; if all have passed, all are decoded again, since the check of the payload has failed, or it was
/// delivered. Writes an entry for each block to `blocks`, the decided bits of all blocks, a byte 0 or 1 for
/// each, to the beginning of `bits`, the bytes that they carry to the beginning of `payload`, and to
/// `delivered` 1 if all checks hold, else 0. Returns 0, or a `Refusal`'s number with nothing changed.
#[unsafe(no_mangle)]
pub extern "C" fn gomzelat_decode(
    alloc: Global,
    bytes: usize,
    receiver: Receiver,
    cells: &[i8],
    blocks: &mut [CodeBlock],
    bits: &mut [u8],
    payload: &mut [u8],
    delivered: &mut u32,
) -> u32
    ensures answer { IsTold result (first_failed (decode_tests bytes receiver (record {
      cells = length cells.now;
      blocks = length blocks.old;
      bits = length bits.old;
      payload = length payload.old;
    }))) }
    ensures blocks { result ≡ 0 → blocks.new ≡ with_front (map entry_of
        (results_after bytes receiver cells.now blocks.old bits.old)) blocks.old }
    ensures bits { result ≡ 0 → bits.new ≡ with_front (digits_of
        (results_after bytes receiver cells.now blocks.old bits.old)) bits.old }
    ensures payload { result ≡ 0 → payload.new ≡ with_front (payload_of (plan_of bytes)
        (results_after bytes receiver cells.now blocks.old bits.old)) payload.old }
    ensures delivered { result ≡ 0 → delivered.new ≡ delivery (plan_of bytes)
        (results_after bytes receiver cells.now blocks.old bits.old) }
    ensures blocks_kept { result ≢ 0 → blocks.new ≡ blocks.old }
    ensures bits_kept { result ≢ 0 → bits.new ≡ bits.old }
    ensures payload_kept { result ≢ 0 → payload.new ≡ payload.old }
    ensures delivered_kept { result ≢ 0 → delivered.new ≡ delivered.old }
{
    told(decode(
        alloc, bytes, &receiver, cells, blocks, bits, payload, delivered,
    ))
}
