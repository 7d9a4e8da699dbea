//! The check bits of transport blocks and code blocks (36.212 5.1.1).
#![tactic(auto)]

ghost use Rattle.std.specs.Prelude.{◌≡◌, ◌↔◌, IsTrue, length};
ghost use Rattle.lte_bits.specs.Packing.{unpacked};
ghost use Rattle.model_sender.specs.CheckBits.{IsCrc, IsMultiple, crc, crc24a, crc24b};

mod generator;
mod tables;

use generator::Generator;
use lte_bits::Bit;

/// Returns the check bits of a transport block, by CRC24A (36.212 5.1.1): the only 24 bits for which the bits
/// followed by them are a multiple of the generator. They are 0 for no bits and for zeros.
pub fn crc24a(bits: &[Bit]) -> [Bit; 24]
    ensures is_crc { IsCrc crc24a bits.now result }
    ensures value { result ≡ crc crc24a bits.now }
    ensures width { length result ≡ 24 }
{
    Generator::A.check_bits(bits)
}

/// Returns the check bits of a transport block of whole bytes, the most significant bit of each first.
pub fn crc24a_of_bytes(bytes: &[u8]) -> [Bit; 24]
    ensures { result ≡ crc crc24a (unpacked bytes.now) }
{
    Generator::A.check_bits_of_bytes(bytes)
}

/// Returns the check bits of a code block, by CRC24B (36.212 5.1.1): the only 24 bits for which the bits
/// followed by them are a multiple of the generator.
pub fn crc24b(bits: &[Bit]) -> [Bit; 24]
    ensures is_crc { IsCrc crc24b bits.now result }
    ensures value { result ≡ crc crc24b bits.now }
    ensures width { length result ≡ 24 }
{
    Generator::B.check_bits(bits)
}

/// Returns whether the bits, check bits included, are a multiple of the generator of CRC24A (36.212 5.1.1).
/// True for no bits and for zeros.
pub fn checks_a(bits: &[Bit]) -> bool
    ensures { IsTrue result ↔ IsMultiple crc24a bits.now }
{
    Generator::A.divides(bits)
}

/// Returns whether the bits, check bits included, are a multiple of the generator of CRC24B (36.212 5.1.1).
/// True for no bits and for zeros.
pub fn checks_b(bits: &[Bit]) -> bool
    ensures { IsTrue result ↔ IsMultiple crc24b bits.now }
{
    Generator::B.divides(bits)
}
