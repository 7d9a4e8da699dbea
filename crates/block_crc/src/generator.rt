//! Division by a generator, two bytes at a time.
ghost use Rattle.std.specs.Prelude.{◌≡◌, ◌+◌, ◌*◌, ◌%◌, ◌^◌, ◌<◌, ◌↔◌, ◌++◌, IsTrue, List, length};
ghost use Rattle.lte_bits.specs.declared.bit.Bit.{Bit};
ghost use Rattle.lte_bits.specs.Bits.{digit, number};
ghost use Rattle.lte_bits.specs.Packing.{unpacked};
ghost use Rattle.model_sender.specs.CheckBits.{IsCrc, IsMonic, IsMultiple, crc, reduced, remainder};
ghost use Rattle.block_crc.specs.Table.{is_table};

use crate::tables::{CRC24A_SHIFT24, CRC24A_SHIFT32, CRC24B_SHIFT24, CRC24B_SHIFT32};
use lte_bits::{Bit, byte_of};

/// A polynomial of degree 24, as the number whose binary digits are its coefficients.
#[derive(Clone, Copy)]
pub struct Generator {
    pub coefficients: u32,
    /// byte * D^24 mod g, for each byte.
    shift24: [u32; 256],
    /// byte * D^32 mod g, for each byte.
    shift32: [u32; 256],
    ghost monic: { IsMonic coefficients },
    ghost shift24_table: { IsTrue (is_table coefficients 8 shift24) },
    ghost shift32_table: { IsTrue (is_table coefficients 16 shift32) },
}

impl Generator {
    /// D^24+D^23+D^18+D^17+D^14+D^11+D^10+D^7+D^6+D^5+D^4+D^3+D+1
    pub const A: Generator = Generator {
        coefficients: 0x186_4CFB,
        shift24: CRC24A_SHIFT24,
        shift32: CRC24A_SHIFT32,
    };

    /// D^24+D^23+D^6+D^5+D+1
    pub const B: Generator = Generator {
        coefficients: 0x180_0063,
        shift24: CRC24B_SHIFT24,
        shift32: CRC24B_SHIFT32,
    };

    /// Returns a polynomial of degree 24 at most, modulo the generator.
    #[tactic(auto, using(model_sender::proofs::Division::falls))]
    fn reduced(&self, t: u32) -> u32
        requires { t < 2 ^ 25 }
        ensures value { result ≡ reduced self.now.coefficients t }
        ensures small { result < 2 ^ 24 }
    {
        if t < 1 << 24 {
            t
        } else {
            t ^ self.coefficients
        }
    }

    /// Returns `start`, followed by the bits, modulo the generator.
    fn remainder_by_bits(&self, start: u32, bits: &[Bit]) -> u32
        requires { start < 2 ^ 24 }
        ensures value { result ≡ remainder self.now.coefficients start bits.now }
        ensures small { result < 2 ^ 24 }
    {
        let mut rest = start;
        for bit in bits {
            rest = self.reduced(2 * rest + u32::from(*bit));
        }
        rest
    }

    /// Returns `start`, followed by the bits of a byte, modulo the generator.
    fn remainder_of_byte(&self, start: u32, byte: u8) -> u32
        requires { start < 2 ^ 24 }
        ensures value { (bits : List Bit) → length bits ≡ 8 → number bits ≡ byte
            → result ≡ remainder self.now.coefficients start bits }
        ensures small { result < 2 ^ 24 }
    {
        self.shift24[(start >> 16) as usize] ^ moved(start, byte)
    }

    /// Returns `start`, followed by the bits of two bytes, modulo the generator.
    fn remainder_of_two(&self, start: u32, first: u8, second: u8) -> u32
        requires { start < 2 ^ 24 }
        ensures value { (a b : List Bit) → length a ≡ 8 → number a ≡ first
            → length b ≡ 8 → number b ≡ second
            → result ≡ remainder self.now.coefficients start (a ++ b) }
        ensures small { result < 2 ^ 24 }
    {
        let rest = self.remainder_of_byte(moved(start, first), second);
        self.shift32[(start >> 16) as usize] ^ rest
    }

    /// Returns `start`, followed by sixteen bits, modulo the generator.
    fn remainder_of_sixteen(&self, start: u32, bits: &[Bit; 16]) -> u32
        requires { start < 2 ^ 24 }
        ensures value { result ≡ remainder self.now.coefficients start bits.now }
        ensures small { result < 2 ^ 24 }
    {
        let (bytes, _) = bits.as_chunks::<8>();
        self.remainder_of_two(start, byte_of(&bytes[0]), byte_of(&bytes[1]))
    }

    /// Returns `start`, followed by the bits, modulo the generator.
    fn remainder(&self, start: u32, bits: &[Bit]) -> u32
        requires { start < 2 ^ 24 }
        ensures value { result ≡ remainder self.now.coefficients start bits.now }
        ensures small { result < 2 ^ 24 }
    {
        let (sixteens, last) = bits.as_chunks::<16>();
        let mut rest = start;
        for sixteen in sixteens {
            rest = self.remainder_of_sixteen(rest, sixteen);
        }
        self.remainder_by_bits(rest, last)
    }

    /// Returns the bits of the bytes, modulo the generator.
    fn remainder_of_bytes(&self, bytes: &[u8]) -> u32
        ensures value { result ≡ remainder self.now.coefficients 0 (unpacked bytes.now) }
        ensures small { result < 2 ^ 24 }
    {
        let (twos, last) = bytes.as_chunks::<2>();
        let mut rest = 0;
        for two in twos {
            rest = self.remainder_of_two(rest, two[0], two[1]);
        }
        match last {
            [byte] => self.remainder_of_byte(rest, *byte),
            _ => rest,
        }
    }

    /// Returns the check bits of what leaves this remainder.
    fn check_bits_after(&self, rest: u32) -> [Bit; 24]
        requires { rest < 2 ^ 24 }
        ensures { (bits : List Bit) → rest ≡ remainder self.now.coefficients 0 bits
            → result ≡ crc self.now.coefficients bits }
    {
        digits(self.remainder(rest, &[Bit::Zero; 24]))
    }

    /// Returns the check bits.
    pub fn check_bits(&self, bits: &[Bit]) -> [Bit; 24]
        ensures is_crc { IsCrc self.now.coefficients bits.now result }
        ensures value { result ≡ crc self.now.coefficients bits.now }
        ensures width { length result ≡ 24 }
    {
        self.check_bits_after(self.remainder(0, bits))
    }

    /// Returns the check bits of the bytes' bits.
    pub fn check_bits_of_bytes(&self, bytes: &[u8]) -> [Bit; 24]
        ensures { result ≡ crc self.now.coefficients (unpacked bytes.now) }
    {
        self.check_bits_after(self.remainder_of_bytes(bytes))
    }

    /// Returns whether the generator divides the bits.
    pub fn divides(&self, bits: &[Bit]) -> bool
        ensures { IsTrue result ↔ IsMultiple self.now.coefficients bits.now }
    {
        self.remainder(0, bits) == 0
    }
}

/// Returns the lowest 16 digits of `start`, followed by those of a byte.
fn moved(start: u32, byte: u8) -> u32
    ensures value { result ≡ start % 2 ^ 16 * 256 + byte }
    ensures small { result < 2 ^ 24 }
{
    start % (1 << 16) * 256 + u32::from(byte)
}

/// Returns the lowest digit of a number.
fn lowest(n: u32) -> Bit
    ensures { digit result ≡ n % 2 }
{
    match n % 2 {
        0 => Bit::Zero,
        _ => Bit::One,
    }
}

/// Returns the 24 digits of a number, most significant first.
fn digits(n: u32) -> [Bit; 24]
    requires { n < 2 ^ 24 }
    ensures width { length result ≡ 24 }
    ensures value { number result ≡ n }
{
    let mut bits = [Bit::Zero; 24];
    for i in 0..24 {
        bits[i] = lowest(n >> (23 - i));
    }
    bits
}
