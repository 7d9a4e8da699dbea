//! The codewords of several transmissions, from one coding (36.212 5.1.5).
ghost use Rattle.std.specs.Prelude.{◌≡◌, ◌≢◌, ◌≤◌, IfOk, OnOk, OnErr, flat_map, length, sum_by};
ghost use Rattle.std.specs.Result.{result_err};
ghost use Rattle.lte_bits.specs.Packing.{packed};
ghost use Rattle.model_sender.specs.CircularBuffer.{FitsIn};
ghost use Rattle.model_sender.specs.Codeword.{codeword};
ghost use Rattle.model_sender.specs.Segmentation.{plan_of};
ghost use Rattle.rate_match.specs.Sendings.{common};
ghost use Rattle.gomzelat_c.specs.Buffers.{with_front};
ghost use Rattle.gomzelat_c.specs.Refusals.{IsDone, IsTold};
ghost use Rattle.gomzelat_c.specs.Transmissions.{codewords_bytes, limit_in, transmissions_of};
ghost use Rattle.gomzelat_c.specs.Tests.{byte_count, codewords_tests, first_failed, output_tests};

use crate::buffers::write_bytes;
use crate::refusal::{Refusal, accept, told};
use crate::series::{byte_count, series_of};
use crate::transmission::{Transmission, buffer_of};
use lte_bits::{List, NoMemory, pack};
use rate_match::{Coded, Sends, fits_buffer};
use segmentation::plans::Plan;
use std::alloc::Global;

/// Tests whether the soft buffer fits a plan, and `bytes` bytes fit in the room.
fn fits(plan: &Plan, n_ir: u32, bytes: usize, room: usize) -> Result<(), Refusal>
    requires plan { plan.now ≡ plan_of plan.now.bytes }
    ensures refused { result_err result ≡ first_failed (output_tests plan.now.bytes n_ir bytes room) }
    ensures fits { OnOk result (FitsIn (limit_in n_ir) plan.now.c plan.now.k_plus) }
    ensures room { OnOk result (bytes ≤ room) }
{
    accept(fits_buffer(buffer_of(n_ir), plan), Refusal::BadBuffer)?;
    accept(bytes <= room, Refusal::ShortOutput)
}

/// Returns the transmissions of a payload of `bytes` bytes, whose codewords are to be written to a buffer of
/// `room` bytes, or the refusal.
fn accepted(
    bytes: usize,
    transmissions: &[Transmission],
    n_ir: u32,
    room: usize,
) -> Result<Sends, Refusal>
    ensures refused { result_err result
        ≡ first_failed (codewords_tests bytes transmissions.now n_ir room) }
    ensures sends { IfOk result
        (λ sends. sends ≡ transmissions_of (limit_in n_ir) transmissions.now) }
    ensures some { OnOk result (1 ≤ bytes) }
    ensures few { OnOk result (bytes ≤ 18722) }
    ensures fits { IfOk result
        (λ sends. FitsIn (common sends).limit (plan_of bytes).c (plan_of bytes).k_plus) }
    ensures room { IfOk result (λ sends. sum_by (λ s. byte_count s.m.g) sends ≤ room) }
{
    let series = series_of(bytes, transmissions, buffer_of(n_ir))?;
    fits(&series.plan, n_ir, byte_count(&series.sends), room)?;
    Ok(series.sends)
}

/// Returns the codewords as bytes, most significant bit first, one after the other.
fn packed_codewords(alloc: Global, payload: &[u8], sends: &Sends) -> Result<List<u8>, NoMemory>
    requires some { 1 ≤ length payload.now }
    requires few { length payload.now ≤ 18722 }
    requires fits { FitsIn (common sends.now).limit (plan_of (length payload.now)).c
        (plan_of (length payload.now)).k_plus }
    ensures bytes { IfOk result (λ bytes. bytes
        ≡ flat_map (λ s. packed (codeword payload.now s.m s.rv)) sends.now) }
    ensures long { IfOk result (λ bytes. length bytes ≡ sum_by (λ s. byte_count s.m.g) sends.now) }
{
    let coded = Coded::new(alloc, payload)?;
    let mut bytes = Vec::with_capacity(alloc, byte_count(sends))?;
    for i in 0..sends.len() {
        let (m, rv) = sends.at(i);
        let bits = coded.codeword(alloc, &m, rv)?;
        let own = pack(alloc, bits.as_slice())?;
        bytes.extend_from_slice(own.as_slice())?;
    }
    Ok(List::from_vec(bytes))
}

fn write_codewords(
    alloc: Global,
    payload: &[u8],
    transmissions: &[Transmission],
    n_ir: u32,
    out: &mut [u8],
) -> Result<(), Refusal>
    ensures answer { IsDone result (first_failed
        (codewords_tests (length payload.now) transmissions.now n_ir (length out.old))) }
    ensures codewords { OnOk result (out.new
        ≡ with_front (codewords_bytes payload.now transmissions.now n_ir) out.old) }
    ensures kept { OnErr result (out.new ≡ out.old) }
{
    let sends = accepted(payload.len(), transmissions, n_ir, out.len())?;
    let bytes = packed_codewords(alloc, payload, &sends)?;
    write_bytes(out, bytes.as_slice());
    Ok(())
}

/// Writes the codewords of one to eight transmissions of a payload of 1 to 18,722 bytes to the beginning of
/// `out`, one after the other, each as `gomzelat_codeword` writes it; the payload is coded once. `n_ir` is 0
/// for a full soft buffer, or N_IR. Returns 0, or a `Refusal`'s number with nothing changed.
#[unsafe(no_mangle)]
pub extern "C" fn gomzelat_codewords(
    alloc: Global,
    payload: &[u8],
    transmissions: &[Transmission],
    n_ir: u32,
    out: &mut [u8],
) -> u32
    ensures answer { IsTold result (first_failed
        (codewords_tests (length payload.now) transmissions.now n_ir (length out.old))) }
    ensures codewords { result ≡ 0 → out.new
        ≡ with_front (codewords_bytes payload.now transmissions.now n_ir) out.old }
    ensures kept { result ≢ 0 → out.new ≡ out.old }
{
    told(write_codewords(alloc, payload, transmissions, n_ir, out))
}
