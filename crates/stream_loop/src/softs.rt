//! Conversion of bytes to soft values, and back.
ghost use Rattle.std.specs.Prelude.{◌≡◌, ◌++◌, IfOk, length};
ghost use Rattle.stream_loop.specs.SoftBytes.{soft_of, softs_of, byte_of, bytes_of};

use lte_bits::{List, NoMemory, Soft};
use std::alloc::Global;

/// Returns the soft value of a byte in two's complement.
fn soft_of(byte: u8) -> Soft
    ensures { result ≡ soft_of byte }
{
    Soft::from_i8(byte.cast_signed())
}

/// Writes the soft values of bytes. Its loop has no branch but its end, so that it can be vectorized.
fn read_softs(bytes: &[u8], softs: &mut [Soft])
    requires { length softs.old ≡ length bytes.now }
    ensures { softs.new ≡ softs_of bytes.now }
{
    for (i, soft) in softs.iter_mut().enumerate() {
        *soft = soft_of(bytes[i]);
    }
}

/// Returns the soft values of bytes in two's complement, where -128 is read as -127.
pub fn softs_of(alloc: Global, bytes: &[u8]) -> Result<List<Soft>, NoMemory>
    ensures { IfOk result (λ softs. softs ≡ softs_of bytes.now) }
{
    let mut softs = vec![in alloc; Soft::ZERO; bytes.len()]?;
    read_softs(bytes, softs.as_mut_slice());
    Ok(List::from_vec(softs))
}

/// Returns the byte of a soft value, in two's complement.
fn byte_of(soft: Soft) -> u8
    ensures { result ≡ byte_of soft }
{
    soft.value().cast_unsigned()
}

/// Appends the bytes of soft values, in two's complement.
pub fn push_bytes(text: &mut Vec<u8>, softs: &[Soft]) -> Result<(), NoMemory>
    ensures { IfOk result (λ _. text.new.items ≡ text.old.items ++ bytes_of softs.now) }
{
    for soft in softs {
        text.push(byte_of(*soft))?;
    }
    Ok(())
}
