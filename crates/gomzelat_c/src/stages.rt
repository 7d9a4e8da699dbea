//! The stages between a payload and its codeword, a code block at a time (36.212 5.1.2 to 5.1.4).
ghost use Rattle.std.specs.Prelude.{◌≡◌, ◌≢◌, ◌≤◌, ◌<◌, IfOk, OnOk, OnErr, [], ◌∷◌, length, nat_le};
ghost use Rattle.std.specs.Result.{result_err};
ghost use Rattle.model_sender.specs.CircularBuffer.{AreStreams, buffer_size};
ghost use Rattle.model_sender.specs.CodeBlocks.{block};
ghost use Rattle.model_sender.specs.CodedStreams.{streams};
ghost use Rattle.model_sender.specs.Segmentation.{fill, plan_of, size};
ghost use Rattle.gomzelat_c.specs.Buffers.{with_front};
ghost use Rattle.gomzelat_c.specs.Refusals.{IsDone, IsTold};
ghost use Rattle.gomzelat_c.specs.declared.refusal.Refusal.TheVariants.{ShortOutput};
ghost use Rattle.gomzelat_c.specs.Stages.{block_digits, block_spots, stream_numbers, stream_places};
ghost use Rattle.gomzelat_c.specs.Stages.{block_test, stage_tests};
ghost use Rattle.gomzelat_c.specs.Tests.{first_failed, length_test, test};

use crate::buffers::write_bytes;
use crate::numbers::{cells_in_a_row, digits_of, numbers_of, spots_of, write_numbers};
use crate::refusal::{Refusal, accept, told};
use lte_bits::{NoMemory, Streams};
use segmentation::plans::Plan;
use segmentation::{TransportBlock, fill, plan, size};
use std::alloc::Global;
use turbo_encode::encode;

/// Returns the plan of a payload of `bytes` bytes, which has a block `r`, or the refusal.
fn planned(bytes: usize, r: usize) -> Result<Plan, Refusal>
    ensures refused { result_err result ≡ first_failed (length_test bytes ∷ block_test bytes r ∷ []) }
    ensures plan { IfOk result (λ plan. plan ≡ plan_of bytes) }
    ensures bytes { IfOk result (λ plan. plan.bytes ≡ bytes) }
    ensures some { OnOk result (1 ≤ bytes) }
    ensures few { OnOk result (bytes ≤ 18722) }
    ensures block { IfOk result (λ plan. r < plan.c) }
{
    let plan = plan(bytes)?;
    accept(r < plan.c, Refusal::BadBlock)?;
    Ok(plan)
}

/// Tests whether `values` values fit in the room.
pub fn has_room(values: usize, room: usize) -> Result<(), Refusal>
    ensures refused { result_err result ≡ first_failed (test (nat_le values room) ShortOutput ∷ []) }
    ensures room { OnOk result (values ≤ room) }
{
    accept(values <= room, Refusal::ShortOutput)
}

fn write_block(alloc: Global, payload: &[u8], r: usize, out: &mut [u8]) -> Result<(), Refusal>
    ensures answer { IsDone result (first_failed (stage_tests (length payload.now) r
        (size (plan_of (length payload.now)) r) (length out.old))) }
    ensures bits { OnOk result (out.new ≡ with_front (block_digits payload.now r) out.old) }
    ensures kept { OnErr result (out.new ≡ out.old) }
{
    let plan = planned(payload.len(), r)?;
    has_room(size(&plan, r), out.len())?;
    let block = TransportBlock::new(payload, plan).code_block(alloc, r)?;
    let digits = digits_of(alloc, block.bits.as_slice())?;
    write_bytes(out, digits.as_slice());
    Ok(())
}

/// Writes to the beginning of `out` the K bits of code block `r` of a payload of 1 to 18,722 bytes, each 0 or
/// 1, fillers 0. Returns 0, or a `Refusal`'s number with nothing changed.
#[unsafe(no_mangle)]
pub extern "C" fn gomzelat_code_block(
    alloc: Global,
    payload: &[u8],
    r: usize,
    out: &mut [u8],
) -> u32
    ensures answer { IsTold result (first_failed (stage_tests (length payload.now) r
        (size (plan_of (length payload.now)) r) (length out.old))) }
    ensures bits { result ≡ 0 → out.new ≡ with_front (block_digits payload.now r) out.old }
    ensures kept { result ≢ 0 → out.new ≡ out.old }
{
    told(write_block(alloc, payload, r, out))
}

/// Returns the coded streams of block `r` of a payload.
pub fn coded_block(
    alloc: Global,
    payload: &[u8],
    plan: &Plan,
    r: usize,
) -> Result<Streams, NoMemory>
    requires plan { plan.now ≡ plan_of (length payload.now) }
    requires some { 1 ≤ length payload.now }
    requires few { length payload.now ≤ 18722 }
    requires block { r < plan.now.c }
    ensures streams { IfOk result (λ s. s
        ≡ streams (block (plan_of (length payload.now)) payload.now r)) }
    ensures shape { IfOk result (λ s. AreStreams (size plan.now r) (fill plan.now r) s) }
{
    let block = TransportBlock::new(payload, *plan).code_block(alloc, r)?;
    encode(alloc, &block)
}

fn write_streams(alloc: Global, payload: &[u8], r: usize, out: &mut [u8]) -> Result<(), Refusal>
    ensures answer { IsDone result (first_failed (stage_tests (length payload.now) r
        (stream_places (length payload.now) r) (length out.old))) }
    ensures streams { OnOk result (out.new ≡ with_front (stream_numbers payload.now r) out.old) }
    ensures kept { OnErr result (out.new ≡ out.old) }
{
    let plan = planned(payload.len(), r)?;
    has_room(3 * (size(&plan, r) + 4), out.len())?;
    let streams = coded_block(alloc, payload, &plan, r)?;
    let numbers = numbers_of(alloc, cells_in_a_row(streams)?.as_slice())?;
    write_bytes(out, numbers.as_slice());
    Ok(())
}

/// Writes to the beginning of `out` the coded streams d0, d1 and d2 of code block `r`, one after the other,
/// each of K + 4 cells: 0, 1, or 2 at a NULL. Returns 0, or a `Refusal`'s number with nothing changed.
#[unsafe(no_mangle)]
pub extern "C" fn gomzelat_streams(alloc: Global, payload: &[u8], r: usize, out: &mut [u8]) -> u32
    ensures answer { IsTold result (first_failed (stage_tests (length payload.now) r
        (stream_places (length payload.now) r) (length out.old))) }
    ensures streams { result ≡ 0 → out.new ≡ with_front (stream_numbers payload.now r) out.old }
    ensures kept { result ≢ 0 → out.new ≡ out.old }
{
    told(write_streams(alloc, payload, r, out))
}

fn write_spots(alloc: Global, bytes: usize, r: usize, out: &mut [u32]) -> Result<(), Refusal>
    ensures answer { IsDone result (first_failed (stage_tests bytes r
        (buffer_size (size (plan_of bytes) r)) (length out.old))) }
    ensures spots { OnOk result (out.new ≡ with_front (block_spots bytes r) out.old) }
    ensures kept { OnErr result (out.new ≡ out.old) }
{
    let plan = planned(bytes, r)?;
    let k = size(&plan, r);
    has_room(96 * (k + 4).div_ceil(32), out.len())?;
    let spots = spots_of(alloc, k, fill(&plan, r))?;
    write_numbers(out, spots.as_slice());
    Ok(())
}

/// Writes to the beginning of `out`, for each of the K_w places of the circular buffer of code block `r` of a
/// payload of `bytes` bytes, which bit of the coded streams is there: 65,536 times its stream and its index;
/// or 2^32 - 1 at a NULL. Returns 0, or a `Refusal`'s number with nothing changed.
#[unsafe(no_mangle)]
pub extern "C" fn gomzelat_spots(alloc: Global, bytes: usize, r: usize, out: &mut [u32]) -> u32
    ensures answer { IsTold result (first_failed (stage_tests bytes r
        (buffer_size (size (plan_of bytes) r)) (length out.old))) }
    ensures spots { result ≡ 0 → out.new ≡ with_front (block_spots bytes r) out.old }
    ensures kept { result ≢ 0 → out.new ≡ out.old }
{
    told(write_spots(alloc, bytes, r, out))
}
