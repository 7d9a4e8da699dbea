//! Iterations until the check holds, for any decoder of half iterations.
ghost use Rattle.std.specs.Prelude.{◌≡◌, ◌+◌, ◌-◌, ◌*◌, ◌≤◌, ℕ, IfOk, length};
ghost use Rattle.lte_bits.specs.declared.block.SoftStreams.{SoftStreams};
ghost use Rattle.model_receiver.specs.HalfIteration.{Shape as Numbers, Before, after, opening};
ghost use Rattle.model_receiver.specs.Decoding.{decided_bits, code_result};

use crate::bits::holds;
use lte_bits::{Bit, Block, List, NoMemory};
use std::alloc::Global;
use window_decode::{CodeResult, Shape};

/// A decoder of a code block, half by half. Its cells and borders may be kept in any layout.
pub trait HalfDecoder: Drop {
    ghost streams: { Self → SoftStreams };

    ghost shape: { Self → Numbers };

    /// The state from which the next half starts.
    ghost before: { Self → Before };

    /// Decodes half `h`.
    fn half(self, h: usize) -> Self
        ensures before { before result ≡ after (streams self) (shape self) h (before self) }
        ensures streams { streams result ≡ streams self }
        ensures shape { shape result ≡ shape self };

    /// Writes the decided bits by place, with fillers 0. There is room for K bits.
    fn decide(&self, bits: &mut [Bit])
        requires { length bits.old ≡ (shape self.now).k }
        ensures { bits.new ≡ decided_bits (shape self.now).f (before self.now).cells };
}

/// Runs iteration `n`, counted from 1.
fn iteration<H: HalfDecoder>(decoder: H, n: usize) -> H
    requires first { 1 ≤ n }
    requires last { n ≤ 16 }
    ensures before { H.before result ≡ after (H.streams decoder) (H.shape decoder) (2 * n - 1)
        (after (H.streams decoder) (H.shape decoder) (2 * n - 2) (H.before decoder)) }
    ensures streams { H.streams result ≡ H.streams decoder }
    ensures shape { H.shape result ≡ H.shape decoder }
{
    decoder.half(2 * n - 2).half(2 * n - 1)
}

/// Returns the result with decided bits of an iteration.
pub fn result_in(fill: usize, bits: Vec<Bit>, iterations: usize, passed: bool) -> CodeResult
    ensures { result ≡ record {
      block = record { fill = fill; bits = bits.items };
      iterations = iterations;
      passed = passed;
    } }
{
    CodeResult {
        block: Block {
            fill,
            bits: List::from_vec(bits),
        },
        iterations,
        passed,
    }
}

/// Iterates until the check holds, or up to the limit.
pub fn decode_halves<H: HalfDecoder>(
    alloc: Global,
    decoder: H,
    shape: &Shape,
) -> Result<CodeResult, NoMemory>
    requires opening { H.before decoder ≡ opening shape.now }
    requires shape { H.shape decoder ≡ shape.now }
    ensures { IfOk result (λ r. r ≡ code_result (H.streams decoder) shape.now) }
{
    let fill = shape.f();
    let mut decoder = decoder;
    let mut bits = vec![in alloc; Bit::Zero; shape.k()]?;
    for n in 1..shape.limit() + 1 {
        decoder = iteration(decoder, n);
        decoder.decide(bits.as_mut_slice());
        if holds(shape.kind(), bits.as_slice()) {
            return Ok(result_in(fill, bits, n, true));
        }
    }
    Ok(result_in(fill, bits, shape.limit(), false))
}
