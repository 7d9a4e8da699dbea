//! Noisy code blocks of twenty sizes, decoded in lock step, window after window and by several workers.
ghost use Rattle.std.specs.Prelude.{◌≡◌, ◌+◌, ◌≤◌, Contains, length};
ghost use Rattle.model_sender.specs.Interleaver.{sizes};
ghost use Rattle.half_iteration.specs.Views.{AreStreams};

use block_crc::crc24a;
use lane_windows::decode_block_lanes;
use lte_bits::{Bit, Block, Cell, List, NoMemory, Soft, SoftStreams, unpack};
use qpp_table::qpp;
use serial_decode::decode_block;
use soft_channel::{noisy, payload};
use std::alloc::Global;
use std::process::Abort;
use std::sync::Wait;
use std::test::Fail;
use std::thread::Threads;
use turbo_encode::encode;
use window_decode::{CheckKind, CodeResult, Shape};
use window_workers::{NoGate, decode_block_shared};

/// Sizes of code blocks, each with how strong the noise is.
const BLOCKS: [(usize, u8); 20] = [
    (64, 14),
    (72, 20),
    (128, 28),
    (192, 14),
    (256, 20),
    (320, 28),
    (384, 14),
    (512, 20),
    (640, 28),
    (768, 14),
    (1008, 20),
    (1536, 28),
    (2048, 14),
    (2560, 20),
    (3072, 28),
    (4096, 14),
    (5120, 20),
    (5824, 28),
    (6016, 14),
    (6144, 20),
];

const SEED: u64 = 5;

/// Whether some block passed in the first iteration, some in a later one, and some in none.
#[derive(Drop)]
struct Seen {
    first: bool,
    later: bool,
    none: bool,
}

impl Seen {
    fn note(&mut self, outcome: &CodeResult) {
        match (outcome.passed, outcome.iterations) {
            (false, _) => self.none = true,
            (true, 1) => self.first = true,
            (true, _) => self.later = true,
        }
    }
}

/// Returns a code block of `k` bits, the last 24 of which check the others.
fn code_block(alloc: Global, k: usize) -> Result<Block, NoMemory>
    requires { (32 ≤ k) × (k ≤ 6144) }
{
    let bytes = payload(alloc, k / 8 - 3, SEED, 0)?;
    let mut bits = unpack(alloc, bytes.as_slice())?.into_vec();
    let check = crc24a(bits.as_slice());
    bits.extend_from_slice(&check)?;
    Ok(Block {
        fill: 0,
        bits: List::from_vec(bits),
    })
}

/// Returns what is received of a stream without fillers.
fn received(alloc: Global, cells: &[Cell], noise: u8, stream: u8) -> Result<List<Soft>, NoMemory>
    requires noise { noise ≤ 127 }
    requires stream { stream ≤ 2 }
{
    let mut bits = Vec::new(alloc);
    for cell in cells {
        bits.push(match cell {
            Cell::One => Bit::One,
            _ => Bit::Zero,
        })?;
    }
    noisy(alloc, bits.as_slice(), 20, noise, SEED, 0, stream)
}

/// Decodes a code block of 8, 16 or 32 windows in lock step.
fn decode_in_lanes(
    rt: &impl Abort,
    alloc: Global,
    streams: &SoftStreams,
    shape: &Shape,
) -> Result<CodeResult, NoMemory>
    requires { AreStreams streams.now shape.now }
{
    match shape.windows() {
        8 => decode_block_lanes::<8>(alloc, streams, shape),
        16 => decode_block_lanes::<16>(alloc, streams, shape),
        32 => decode_block_lanes::<32>(alloc, streams, shape),
        _ => panic!(rt; "no number of lanes"),
    }
}

fn are_equal(one: &CodeResult, other: &CodeResult) -> bool {
    one.block == other.block && one.iterations == other.iterations && one.passed == other.passed
}

/// Returns what the three decoders make of a code block alike.
fn decode_alike<R: Threads + Wait + Sync + Abort>(
    rt: &R,
    alloc: Global,
    streams: &SoftStreams,
    shape: &Shape,
) -> Result<CodeResult, Fail>
    requires { AreStreams streams.now shape.now }
{
    let alone = decode_block(alloc, streams, shape)?;
    let lanes = decode_in_lanes(rt, alloc, streams, shape)?;
    assert!(rt; are_equal(&alone, &lanes), "in lock step, {shape:?}");
    let (shared, _) = decode_block_shared(rt, alloc, streams, shape, 3, &NoGate)?;
    assert!(rt; are_equal(&alone, &shared), "by workers, {shape:?}");
    Ok(alone)
}

/// Returns the streams of a code block after noise.
fn noisy_streams(alloc: Global, block: &Block, noise: u8) -> Result<SoftStreams, NoMemory>
    requires size { Contains sizes (length block.now.bits) }
    requires noise { noise ≤ 127 }
{
    let coded = encode(alloc, block)?;
    Ok(SoftStreams {
        fill: 0,
        d0: received(alloc, coded.d0.as_slice(), noise, 0)?,
        d1: received(alloc, coded.d1.as_slice(), noise, 1)?,
        d2: received(alloc, coded.d2.as_slice(), noise, 2)?,
    })
}

/// Decodes the streams of a code block in 8, 16 and 32 windows, where its size allows, and notes the results.
fn decode_windows<R: Threads + Wait + Sync + Abort>(
    rt: &R,
    alloc: Global,
    block: &Block,
    streams: &SoftStreams,
    seen: &mut Seen,
) -> Result<(), Fail>
    requires fill { streams.now.fill ≡ 0 }
    requires d0 { length streams.now.d0 ≡ length block.now.bits + 4 }
    requires d1 { length streams.now.d1 ≡ length block.now.bits + 4 }
    requires d2 { length streams.now.d2 ≡ length block.now.bits + 4 }
{
    let k = block.bits.as_slice().len();
    for windows in [8, 16, 32] {
        let Some(shape) = Shape::new(k, 0, CheckKind::A, windows, 3) else {
            continue;
        };
        let result = decode_alike(rt, alloc, streams, &shape)?;
        assert!(rt; !result.passed || result.block == *block, "{shape:?}");
        seen.note(&result);
    }
    Ok(())
}

#[test]
fn three_decoders_agree_on_noisy_blocks(rt: HostRuntime) -> Result<(), Fail> {
    let mut seen = Seen {
        first: false,
        later: false,
        none: false,
    };
    for (k, noise) in BLOCKS {
        assert!(rt; 32 <= k && k <= 6144 && noise <= 127);
        let block = code_block(rt.alloc(), k)?;
        let size = block.bits.as_slice().len();
        assert!(rt; size == k && qpp(size).is_some());
        let streams = noisy_streams(rt.alloc(), &block, noise)?;
        let lengths = (
            streams.d0.as_slice().len(),
            streams.d1.as_slice().len(),
            streams.d2.as_slice().len(),
        );
        assert!(rt; streams.fill == 0);
        assert!(rt; lengths.0 == k + 4 && lengths.1 == k + 4 && lengths.2 == k + 4);
        decode_windows(&rt, rt.alloc(), &block, &streams, &mut seen)?;
    }
    assert!(rt; seen.first && seen.later && seen.none);
    Ok(())
}
