//! Unpacking of bytes into bits, and packing of bits into bytes.
ghost use Rattle.std.specs.Prelude.{◌+◌, ◌*◌, ◌/◌, ◌≡◌, ◌≤◌, ◌<◌, ◌++◌, IfOk, OnOk, length};
ghost use Rattle.lte_bits.specs.Bits.{number};
ghost use Rattle.lte_bits.specs.Lists.{resized};
ghost use Rattle.lte_bits.specs.Packing.{four_bits, unpacked, packed};

use crate::bit::Bit;
use crate::list::{List, NoMemory};
use std::alloc::Global;

/// The four bits of each number 0 to 15, most significant first.
static ROWS: [[Bit; 4]; 16] = [
    [Bit::Zero, Bit::Zero, Bit::Zero, Bit::Zero],
    [Bit::Zero, Bit::Zero, Bit::Zero, Bit::One],
    [Bit::Zero, Bit::Zero, Bit::One, Bit::Zero],
    [Bit::Zero, Bit::Zero, Bit::One, Bit::One],
    [Bit::Zero, Bit::One, Bit::Zero, Bit::Zero],
    [Bit::Zero, Bit::One, Bit::Zero, Bit::One],
    [Bit::Zero, Bit::One, Bit::One, Bit::Zero],
    [Bit::Zero, Bit::One, Bit::One, Bit::One],
    [Bit::One, Bit::Zero, Bit::Zero, Bit::Zero],
    [Bit::One, Bit::Zero, Bit::Zero, Bit::One],
    [Bit::One, Bit::Zero, Bit::One, Bit::Zero],
    [Bit::One, Bit::Zero, Bit::One, Bit::One],
    [Bit::One, Bit::One, Bit::Zero, Bit::Zero],
    [Bit::One, Bit::One, Bit::Zero, Bit::One],
    [Bit::One, Bit::One, Bit::One, Bit::Zero],
    [Bit::One, Bit::One, Bit::One, Bit::One],
];

/// Returns the four bits of a number, most significant first.
fn row(n: usize) -> [Bit; 4]
    requires { n < 16 }
    ensures { result ≡ four_bits n }
{
    ROWS[n]
}

/// Writes the bits of each byte, most significant first.
fn write_unpacked(bits: &mut [Bit], bytes: &[u8])
    requires { length bits.old ≡ 8 * length bytes.now }
    ensures { bits.new ≡ unpacked bytes.now }
{
    for (i, byte) in bytes.iter().enumerate() {
        let byte = usize::from(*byte);
        let at = 8 * i;
        bits[at..at + 4].copy_from_slice(&row(byte / 16));
        bits[at + 4..at + 8].copy_from_slice(&row(byte % 16));
    }
}

/// Appends the bits of each byte, most significant first: eight for each byte.
pub fn push_unpacked(bits: &mut Vec<Bit>, bytes: &[u8]) -> Result<(), NoMemory>
    ensures { OnOk result (bits.new.items ≡ bits.old.items ++ unpacked bytes.now) }
{
    let from = bits.len();
    let more = bytes.len().checked_mul(8).ok_or(NoMemory)?;
    bits.resize(from.checked_add(more).ok_or(NoMemory)?, Bit::Zero)?;
    write_unpacked(&mut bits.as_mut_slice()[from..], bytes);
    Ok(())
}

/// Returns the bits of each byte, most significant first. Allocates eight for each byte.
pub fn unpack(alloc: Global, bytes: &[u8]) -> Result<List<Bit>, NoMemory>
    ensures { IfOk result (λ bits. bits ≡ unpacked bytes.now) }
{
    let mut bits = Vec::new(alloc);
    push_unpacked(&mut bits, bytes)?;
    Ok(List::from_vec(bits))
}

/// Returns the byte of eight bits, most significant first.
pub fn byte_of(digits: &[Bit; 8]) -> u8
    ensures { result ≡ number digits.now }
{
    // The highest byte of this product collects the digits, each at its weight.
    let digits = u64::from_le_bytes(digits.map(u8::from));
    (digits.wrapping_mul(0x8040_2010_0804_0201) >> 56) as u8
}

/// Returns at most eight bits, padded with `Zero`.
fn filled_up(bits: &[Bit]) -> [Bit; 8]
    requires { length bits.now ≤ 8 }
    ensures { result ≡ resized bits.now 8 Bit.Zero }
{
    let mut digits = [Bit::Zero; 8];
    digits[..bits.len()].copy_from_slice(bits);
    digits
}

/// Packs bits into bytes, most significant bit first.
fn write_packed(bytes: &mut [u8], bits: &[Bit])
    requires { length bytes.old ≡ (length bits.now + 7) / 8 }
    ensures { bytes.new ≡ packed bits.now }
{
    let (whole, last) = bits.as_chunks::<8>();
    for (i, digits) in whole.iter().enumerate() {
        bytes[i] = byte_of(digits);
    }
    if !last.is_empty() {
        bytes[whole.len()] = byte_of(&filled_up(last));
    }
}

/// Packs n bits into ceil(n / 8) bytes, which are allocated, most significant bit first. The unused low bits
/// of the last byte are 0.
pub fn pack(alloc: Global, bits: &[Bit]) -> Result<List<u8>, NoMemory>
    ensures { IfOk result (λ bytes. bytes ≡ packed bits.now) }
{
    let mut bytes = vec![in alloc; 0; bits.len().div_ceil(8)]?;
    write_packed(bytes.as_mut_slice(), bits);
    Ok(List::from_vec(bytes))
}
