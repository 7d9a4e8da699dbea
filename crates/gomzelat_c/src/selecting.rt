//! The bits that a code block sends (36.212 5.1.4.1.2).
ghost use Rattle.std.specs.Prelude.{◌≡◌, ◌≢◌, ◌≤◌, ◌<◌, IfOk, OnOk, OnErr, length};
ghost use Rattle.std.specs.Result.{result_err};
ghost use Rattle.model_sender.specs.CircularBuffer.{Fits, piece_length};
ghost use Rattle.model_sender.specs.Segmentation.{plan_of};
ghost use Rattle.gomzelat_c.specs.Buffers.{with_front};
ghost use Rattle.gomzelat_c.specs.Refusals.{IsDone, IsTold};
ghost use Rattle.gomzelat_c.specs.Selecting.{selected, selection_tests};
ghost use Rattle.gomzelat_c.specs.Tests.{first_failed};
ghost use Rattle.gomzelat_c.specs.Transmissions.{limit_in, transmission_of};

use crate::buffers::write_bytes;
use crate::numbers::digits_of;
use crate::pieces::{self, Asked};
use crate::refusal::{Refusal, told};
use crate::stages::{coded_block, has_room};
use crate::transmission::Transmission;
use rate_match::{piece_len, select};
use std::alloc::Global;

/// Returns a transmission of a payload of `bytes` bytes in which block `r` sends no more bits than have room,
/// or the refusal.
fn accepted(
    bytes: usize,
    r: usize,
    transmission: &Transmission,
    n_ir: u32,
    room: usize,
) -> Result<Asked, Refusal>
    ensures refused { result_err result
        ≡ first_failed (selection_tests bytes r transmission.now n_ir room) }
    ensures plan { IfOk result (λ asked. asked.plan ≡ plan_of bytes) }
    ensures sending { IfOk result (λ asked. asked.sending ≡ transmission_of (limit_in n_ir) transmission.now) }
    ensures block { IfOk result (λ asked. r < asked.plan.c) }
    ensures fits { IfOk result (λ asked. Fits asked.sending.m asked.plan) }
    ensures version { IfOk result (λ asked. asked.sending.rv ≤ 3) }
    ensures some { OnOk result (1 ≤ bytes) }
    ensures few { OnOk result (bytes ≤ 18722) }
    ensures room { IfOk result (λ asked. piece_length asked.sending.m asked.plan.c r ≤ room) }
{
    let asked = pieces::accepted(bytes, r, transmission, n_ir)?;
    has_room(piece_len(&asked.sending.m, &asked.plan, r), room)?;
    Ok(asked)
}

fn write_selected(
    alloc: Global,
    payload: &[u8],
    r: usize,
    transmission: &Transmission,
    n_ir: u32,
    out: &mut [u8],
) -> Result<(), Refusal>
    ensures answer { IsDone result (first_failed
        (selection_tests (length payload.now) r transmission.now n_ir (length out.old))) }
    ensures bits { OnOk result (out.new
        ≡ with_front (selected payload.now r transmission.now n_ir) out.old) }
    ensures kept { OnErr result (out.new ≡ out.old) }
{
    let asked = accepted(payload.len(), r, transmission, n_ir, out.len())?;
    let streams = coded_block(alloc, payload, &asked.plan, r)?;
    let m = &asked.sending.m;
    let bits = select(alloc, &streams, m, r, &asked.plan, asked.sending.rv)?;
    let digits = digits_of(alloc, bits.as_slice())?;
    write_bytes(out, digits.as_slice());
    Ok(())
}

/// Writes to the beginning of `out` the E bits, each 0 or 1, that code block `r` of a payload of 1 to 18,722
/// bytes sends in a transmission. `n_ir` is 0 for a full soft buffer, or N_IR. Returns 0, or a `Refusal`'s
/// number with nothing changed.
#[unsafe(no_mangle)]
pub extern "C" fn gomzelat_select(
    alloc: Global,
    payload: &[u8],
    r: usize,
    transmission: Transmission,
    n_ir: u32,
    out: &mut [u8],
) -> u32
    ensures answer { IsTold result (first_failed
        (selection_tests (length payload.now) r transmission n_ir (length out.old))) }
    ensures bits { result ≡ 0 → out.new
        ≡ with_front (selected payload.now r transmission n_ir) out.old }
    ensures kept { result ≢ 0 → out.new ≡ out.old }
{
    told(write_selected(alloc, payload, r, &transmission, n_ir, out))
}
