//! Copies of values from and to a caller's memory.
ghost use Rattle.std.specs.Prelude.{◌≡◌, ◌≤◌, IfOk, length, map, take};
ghost use Rattle.lte_bits.specs.Packing.{unpacked};
ghost use Rattle.lte_bits.specs.Softs.{clamped};
ghost use Rattle.gomzelat_c.specs.Buffers.{with_front};
ghost use Rattle.gomzelat_c.specs.Tests.{byte_count};

use lte_bits::{Bit, List, NoMemory, Soft, unpack};
use std::alloc::Global;

/// Writes bytes to the beginning of a buffer.
pub fn write_bytes(buffer: &mut [u8], bytes: &[u8])
    requires { length bytes.now ≤ length buffer.old }
    ensures { buffer.new ≡ with_front bytes.now buffer.old }
{
    buffer[..bytes.len()].copy_from_slice(bytes);
}

/// Writes soft values to the beginning of a buffer.
pub fn write_softs(buffer: &mut [i8], softs: &[Soft])
    requires { length softs.now ≤ length buffer.old }
    ensures { buffer.new ≡ with_front softs.now buffer.old }
{
    for (i, soft) in softs.iter().enumerate() {
        buffer[i] = soft.value();
    }
}

/// Returns the soft values of numbers, where -128 is taken as -127.
pub fn softs_of(alloc: Global, numbers: &[i8]) -> Result<List<Soft>, NoMemory>
    ensures { IfOk result (λ softs. softs ≡ map (clamped 127) numbers.now) }
{
    let mut softs = Vec::with_capacity(alloc, numbers.len())?;
    for number in numbers {
        softs.push(Soft::from_i8(*number))?;
    }
    Ok(List::from_vec(softs))
}

/// Returns the first `count` bits of bytes; the bits after them are ignored.
pub fn bits_of(alloc: Global, count: usize, bytes: &[u8]) -> Result<List<Bit>, NoMemory>
    requires { byte_count count ≤ length bytes.now }
    ensures { IfOk result (λ bits. bits ≡ take count (unpacked bytes.now)) }
{
    let mut bits = unpack(alloc, &bytes[..count.div_ceil(8)])?;
    bits.resize(count, Bit::Zero)?;
    Ok(bits)
}
