//! Payloads of trials.
ghost use Rattle.std.specs.Prelude.{◌≡◌, ◌≤◌, ◌%◌, IfOk, map};
ghost use Rattle.soft_channel.specs.TrialPayload.{trial_payload};

use crate::words::{CHUNK, Purpose, generator, next_words};
use lte_bits::{List, NoMemory};
use std::alloc::Global;

/// Returns the lowest byte of each word.
fn lowest_bytes(words: &[u32; CHUNK]) -> [u8; CHUNK]
    ensures { result ≡ map (λ word. word % 256) words.now }
{
    let mut bytes = [0; CHUNK];
    for (i, word) in words.iter().enumerate() {
        bytes[i] = (word % 256) as u8;
    }
    bytes
}

/// Returns the payload of a trial's block, counted from 0: `length` bytes, 1 to 18,722, from the seed.
/// Allocates these bytes.
pub fn payload(alloc: Global, length: usize, seed: u64, block: u32) -> Result<List<u8>, NoMemory>
    requires { (1 ≤ length) × (length ≤ 18722) }
    ensures { IfOk result (λ bytes. bytes ≡ trial_payload seed block length) }
{
    let mut words = generator(Purpose::Payload, seed, block, 0);
    let mut bytes = Vec::with_capacity(alloc, length)?;
    for _ in 0..length / CHUNK {
        bytes.extend_from_slice(&lowest_bytes(&next_words(&mut words)))?;
    }
    bytes.extend_from_slice(&lowest_bytes(&next_words(&mut words))[..length % CHUNK])?;
    Ok(List::from_vec(bytes))
}
