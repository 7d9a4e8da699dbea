//! The code block and the transport block that are encoded.
ghost use Rattle.std.specs.Prelude.{◌≡◌, ◌≤◌, ◌<◌, IfOk, length};
ghost use Rattle.model_sender.specs.CircularBuffer.{Match};
ghost use Rattle.encode_speed.specs.Sample.{matching, sample, sample_bit, sample_byte, sample_payload};

use lte_bits::{Bit, Block, List, NoMemory};
use rate_match::{Buffer, Match};
use std::alloc::Global;

/// The greatest size of a code block.
pub const SIZE: usize = 6144;

/// The bytes of the transport block: 13 code blocks of 5,824 bits.
pub const BYTES: usize = 9422;

/// Returns a one where i * i mod 7 is less than 3.
fn sample_bit(i: usize) -> Bit
    requires { i < SIZE }
    ensures { result ≡ sample_bit i }
{
    if i * i % 7 < 3 { Bit::One } else { Bit::Zero }
}

/// Returns the block of `k` bits.
#[tactic(auto, unfolding(crate::specs::Sample::sample))]
pub fn sample(alloc: Global, k: usize) -> Result<Block, NoMemory>
    requires { k ≤ SIZE }
    ensures block { IfOk result (λ b. b ≡ sample k) }
    ensures size { IfOk result (λ b. length b.bits ≡ k) }
    ensures fill { IfOk result (λ b. b.fill ≡ 0) }
{
    let mut bits = Vec::with_capacity(alloc, k)?;
    for i in 0..k {
        bits.push(sample_bit(i))?;
    }
    Ok(Block {
        fill: 0,
        bits: List::from_vec(bits),
    })
}

/// Returns i * i mod 251.
fn sample_byte(i: usize) -> u8
    requires { i < BYTES }
    ensures { result ≡ sample_byte i }
{
    (i * i % 251) as u8
}

/// Returns a payload of `n` bytes.
#[tactic(auto, unfolding(crate::specs::Sample::sample_payload))]
pub fn sample_payload(alloc: Global, n: usize) -> Result<Vec<u8>, NoMemory>
    requires { n ≤ BYTES }
    ensures payload { IfOk result (λ bytes. bytes.items ≡ sample_payload n) }
    ensures size { IfOk result (λ bytes. length bytes.items ≡ n) }
{
    let mut bytes = Vec::with_capacity(alloc, n)?;
    for i in 0..n {
        bytes.push(sample_byte(i))?;
    }
    Ok(bytes)
}

/// Returns 90,000 bits of 64QAM on one layer, and the whole soft buffer.
pub fn matching() -> Match
    ensures { result ≡ matching }
{
    Match::new(6, 1, 90_000, Buffer::Full).unwrap()
}
