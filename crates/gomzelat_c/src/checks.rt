//! Check bits (36.212 5.1.1).
ghost use Rattle.std.specs.Prelude.{◌≡◌, ◌≢◌, OnOk, OnErr, length};
ghost use Rattle.model_sender.specs.CheckBits.{crc, crc24a, crc24b};
ghost use Rattle.model_receiver.specs.Decoding.{generator};
ghost use Rattle.gomzelat_c.specs.Buffers.{with_front};
ghost use Rattle.gomzelat_c.specs.Checks.{check_digits, check_tests};
ghost use Rattle.gomzelat_c.specs.Refusals.{IsDone, IsTold};
ghost use Rattle.gomzelat_c.specs.Tests.{first_failed};

use crate::buffers::write_bytes;
use crate::numbers::digits_of;
use crate::refusal::{Refusal, accept, told};
use crate::state::bits_of;
use lte_bits::Bit;
use model_receiver::CheckKind;
use std::alloc::Global;

/// Returns the check bits of bits.
fn check_bits(kind: CheckKind, bits: &[Bit]) -> [Bit; 24]
    ensures value { result ≡ crc (generator kind) bits.now }
    ensures width { length result ≡ 24 }
{
    match kind {
        CheckKind::A => block_crc::crc24a(bits),
        CheckKind::B => block_crc::crc24b(bits),
    }
}

fn write_check(alloc: Global, kind: CheckKind, bits: &[u8], out: &mut [u8]) -> Result<(), Refusal>
    ensures answer { IsDone result (first_failed (check_tests (length out.old))) }
    ensures check { OnOk result (out.new
        ≡ with_front (check_digits (generator kind) bits.now) out.old) }
    ensures kept { OnErr result (out.new ≡ out.old) }
{
    accept(24 <= out.len(), Refusal::ShortOutput)?;
    let bits = bits_of(alloc, bits)?;
    let check = check_bits(kind, bits.as_slice());
    let digits = digits_of(alloc, &check)?;
    write_bytes(out, digits.as_slice());
    Ok(())
}

/// Writes the 24 check bits of a transport block's bits, by CRC24A, to the beginning of `out`, each 0 or 1.
/// `bits` may be empty; any non-zero byte is a bit 1. Returns 0, or a `Refusal`'s number with nothing
/// changed.
#[unsafe(no_mangle)]
pub extern "C" fn gomzelat_crc24a(alloc: Global, bits: &[u8], out: &mut [u8]) -> u32
    ensures answer { IsTold result (first_failed (check_tests (length out.old))) }
    ensures check { result ≡ 0 → out.new ≡ with_front (check_digits crc24a bits.now) out.old }
    ensures kept { result ≢ 0 → out.new ≡ out.old }
{
    told(write_check(alloc, CheckKind::A, bits, out))
}

/// Writes the same by CRC24B, for a code block's bits where there are several blocks.
#[unsafe(no_mangle)]
pub extern "C" fn gomzelat_crc24b(alloc: Global, bits: &[u8], out: &mut [u8]) -> u32
    ensures answer { IsTold result (first_failed (check_tests (length out.old))) }
    ensures check { result ≡ 0 → out.new ≡ with_front (check_digits crc24b bits.now) out.old }
    ensures kept { result ≢ 0 → out.new ≡ out.old }
{
    told(write_check(alloc, CheckKind::B, bits, out))
}
