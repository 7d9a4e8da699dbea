//! Codewords (36.212 5.1.1 to 5.1.5).
ghost use Rattle.std.specs.Prelude.{◌≡◌, ◌≢◌, ◌≤◌, IfOk, OnOk, OnErr, length};
ghost use Rattle.std.specs.Result.{result_err};
ghost use Rattle.lte_bits.specs.Packing.{packed};
ghost use Rattle.model_sender.specs.CircularBuffer.{Fits, FitsIn};
ghost use Rattle.model_sender.specs.Codeword.{codeword};
ghost use Rattle.model_sender.specs.Segmentation.{plan_of};
ghost use Rattle.segmentation.specs.declared.planning.TheConstants.{MOST_BYTES};
ghost use Rattle.gomzelat_c.specs.Buffers.{with_front};
ghost use Rattle.gomzelat_c.specs.Refusals.{IsDone, IsTold};
ghost use Rattle.gomzelat_c.specs.Transmissions.{codeword_bytes, limit_in, transmission_of};
ghost use Rattle.gomzelat_c.specs.Tests.{byte_count, codeword_tests, first_failed};

use crate::buffers::write_bytes;
use crate::refusal::{Refusal, accept, told};
use crate::transmission::{Transmission, buffer_of};
use lte_bits::{List, NoMemory, pack};
use rate_match::sends::Sending;
use rate_match::{codeword, fits_buffer};
use segmentation::plan;
use std::alloc::Global;

/// Returns the transmission of a payload of `bytes` bytes, whose codeword is to be written to a buffer of
/// `room` bytes, or the refusal.
fn accepted(
    bytes: usize,
    transmission: &Transmission,
    n_ir: u32,
    room: usize,
) -> Result<Sending, Refusal>
    ensures refused { result_err result ≡ first_failed (codeword_tests bytes transmission.now n_ir room) }
    ensures sending { IfOk result (λ sending. sending ≡ transmission_of (limit_in n_ir) transmission.now) }
    ensures some { OnOk result (1 ≤ bytes) }
    ensures few { OnOk result (bytes ≤ MOST_BYTES) }
    ensures fits { OnOk result (FitsIn (limit_in n_ir) (plan_of bytes).c (plan_of bytes).k_plus) }
    ensures version { OnOk result (transmission.now.rv ≤ 3) }
    ensures room { OnOk result (byte_count transmission.now.g ≤ room) }
{
    let plan = plan(bytes)?;
    let buffer = buffer_of(n_ir);
    let sending = transmission.sending(buffer)?;
    accept(fits_buffer(buffer, &plan), Refusal::BadBuffer)?;
    accept(sending.m.g().div_ceil(8) <= room, Refusal::ShortOutput)?;
    Ok(sending)
}

/// Returns the codeword as bytes, most significant bit first.
fn packed_codeword(alloc: Global, payload: &[u8], sending: &Sending) -> Result<List<u8>, NoMemory>
    requires some { 1 ≤ length payload.now }
    requires few { length payload.now ≤ MOST_BYTES }
    requires fits { Fits sending.now.m (plan_of (length payload.now)) }
    requires version { sending.now.rv ≤ 3 }
    ensures bytes { IfOk result (λ bytes. bytes
        ≡ packed (codeword payload.now sending.now.m sending.now.rv)) }
    ensures long { IfOk result (λ bytes. length bytes ≡ byte_count sending.now.m.g) }
{
    let bits = codeword(alloc, payload, &sending.m, sending.rv)?;
    pack(alloc, bits.as_slice())
}

fn write_codeword(
    alloc: Global,
    payload: &[u8],
    transmission: &Transmission,
    n_ir: u32,
    out: &mut [u8],
) -> Result<(), Refusal>
    ensures answer { IsDone result (first_failed
        (codeword_tests (length payload.now) transmission.now n_ir (length out.old))) }
    ensures codeword { OnOk result (out.new
        ≡ with_front (codeword_bytes payload.now transmission.now n_ir) out.old) }
    ensures kept { OnErr result (out.new ≡ out.old) }
{
    let sending = accepted(payload.len(), transmission, n_ir, out.len())?;
    let bytes = packed_codeword(alloc, payload, &sending)?;
    write_bytes(out, bytes.as_slice());
    Ok(())
}

/// Writes the codeword of a payload of 1 to 18,722 bytes to the beginning of `out`: G bits in G/8 bytes,
/// rounded up, most significant bit first, the unused low bits of the last byte 0. `n_ir` is 0 for a full
/// soft buffer, or N_IR. Returns 0, or a `Refusal`'s number with nothing changed.
#[unsafe(no_mangle)]
pub extern "C" fn gomzelat_codeword(
    alloc: Global,
    payload: &[u8],
    transmission: Transmission,
    n_ir: u32,
    out: &mut [u8],
) -> u32
    ensures answer { IsTold result (first_failed
        (codeword_tests (length payload.now) transmission n_ir (length out.old))) }
    ensures codeword { result ≡ 0 → out.new
        ≡ with_front (codeword_bytes payload.now transmission n_ir) out.old }
    ensures kept { result ≢ 0 → out.new ≡ out.old }
{
    told(write_codeword(alloc, payload, &transmission, n_ir, out))
}
