//! A code block decoded on one thread.
ghost use Rattle.std.specs.Prelude.{◌≡◌, IfOk};
ghost use Rattle.model_receiver.specs.Decoding.{code_result};
ghost use Rattle.half_iteration.specs.Views.{AreStreams};

use crate::tries::Decoded;
use lane_windows::decode_block_lanes;
use lte_bits::SoftStreams;
use serial_decode::decode_block;
use std::alloc::Global;
use window_decode::Shape;

/// Decodes a code block on one thread: 8, 16 or 32 windows in lock step, and any other number of them one
/// after the other.
pub fn decode_alone(alloc: Global, streams: &SoftStreams, shape: &Shape) -> Decoded
    requires { AreStreams streams.now shape.now }
    ensures { IfOk result (λ r. r ≡ code_result streams.now shape.now) }
{
    match shape.windows() {
        8 => decode_block_lanes::<8>(alloc, streams, shape),
        16 => decode_block_lanes::<16>(alloc, streams, shape),
        32 => decode_block_lanes::<32>(alloc, streams, shape),
        _ => decode_block(alloc, streams, shape),
    }
}
