//! Random words from a seed, a separate sequence for each purpose.
ghost use Rattle.std.specs.Prelude.{◌≡◌, ◌+◌, ◌<◌, ◌^◌, map};
ghost use Rattle.std.specs.List.{range_with_len};
ghost use Rattle.rand_chacha.specs.ChaCha.{of_seed, word_at};
ghost use Rattle.soft_channel.specs.Words.{key, purpose_byte};

use byteorder::{BigEndian, ByteOrder};
use rand_chacha::ChaCha8Rng;
use rand_core::SeedableRng;
use rand_core::utils::NextWord;

/// The words drawn at a time, as many as the generator makes at once.
pub const CHUNK: usize = 64;

/// The purpose that words are drawn for.
#[derive(Clone, Copy)]
pub enum Purpose {
    Noise,
    Payload,
}

impl Purpose {
    fn byte(self) -> u8
        ensures { result ≡ purpose_byte self }
    {
        match self {
            Purpose::Noise => 0,
            Purpose::Payload => 1,
        }
    }
}

/// Returns the key of a generator.
fn key(purpose: Purpose, seed: u64, block: u32, tx: u8) -> [u8; 32]
    ensures { result ≡ key (record { purpose = purpose; seed = seed; block = block; transmission = tx }) }
{
    let mut key = [0; 32];
    BigEndian::write_u64(&mut key[..8], seed);
    BigEndian::write_u32(&mut key[8..12], block);
    key[12] = tx;
    key[13] = purpose.byte();
    key
}

/// Returns the generator of the words that are drawn for a purpose in a transmission of a block.
pub fn generator(purpose: Purpose, seed: u64, block: u32, tx: u8) -> ChaCha8Rng
    ensures { result ≡ of_seed (key (record {
      purpose = purpose;
      seed = seed;
      block = block;
      transmission = tx;
    })) }
{
    ChaCha8Rng::from_seed(key(purpose, seed, block, tx))
}

/// Draws the next words of a generator.
pub fn next_words(generator: &mut ChaCha8Rng) -> [u32; CHUNK]
    requires { generator.old.word_pos + CHUNK < 2 ^ 68 }
    ensures words { result ≡ map (λ k. word_at 4 generator.old.key generator.old.stream (generator.old.word_pos + k))
        (range_with_len 0 CHUNK) }
    ensures after { generator.new ≡ record generator.old { word_pos = generator.old.word_pos + CHUNK } }
{
    let mut words = [0; CHUNK];
    for word in words.iter_mut() {
        *word = generator.next_word();
    }
    words
}
