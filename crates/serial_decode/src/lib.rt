//! The decoding of a code block on one thread, window after window.
#![tactic(auto)]

ghost use Rattle.std.specs.Prelude.{◌≡◌, ◌+◌, IfOk, length};
ghost use Rattle.model_receiver.specs.Decoding.{code_result};

mod decoder;
mod half;
mod strip;
mod window;

use decoder::SerialDecoder;
use half_iteration::decode_halves;
use lte_bits::{NoMemory, SoftStreams};
use std::alloc::Global;
use window_decode::{CodeResult, Shape};

/// Decodes a code block: the result of the first iteration whose check holds, or else of the last that
/// the shape allows. The streams have length K + 4, and as many fillers as the shape.
pub fn decode_block(
    alloc: Global,
    streams: &SoftStreams,
    shape: &Shape,
) -> Result<CodeResult, NoMemory>
    requires fill { streams.now.fill ≡ shape.now.f }
    requires d0 { length streams.now.d0 ≡ shape.now.k + 4 }
    requires d1 { length streams.now.d1 ≡ shape.now.k + 4 }
    requires d2 { length streams.now.d2 ≡ shape.now.k + 4 }
    ensures { IfOk result (λ r. r ≡ code_result streams.now shape.now) }
{
    let decoder = SerialDecoder::new(alloc, streams, shape)?;
    decode_halves(alloc, decoder, shape)
}
