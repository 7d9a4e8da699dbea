//! The border after the last position of a code block.
ghost use Rattle.std.specs.Prelude.{◌≡◌};
ghost use Rattle.model_receiver.specs.HalfIteration.{tail_border};
ghost use Rattle.half_iteration.specs.Views.{AreStreams};

use lte_bits::SoftStreams;
use window_decode::{Border, Shape};

/// Returns the tail border of half `h`: the soft values of the first coder's tail bits in even halves, of the
/// second coder's in odd ones (36.212 5.1.3.2.2).
pub fn tail_of(streams: &SoftStreams, shape: &Shape, h: usize) -> Border
    requires { AreStreams streams.now shape.now }
    ensures { result ≡ tail_border streams.now shape.now.k h }
{
    let k = shape.k();
    let d0 = streams.d0.as_slice();
    let d1 = streams.d1.as_slice();
    let d2 = streams.d2.as_slice();
    if h % 2 == 0 {
        Border::tail([d0[k], d2[k], d1[k + 1]], [d1[k], d0[k + 1], d2[k + 1]])
    } else {
        Border::tail(
            [d0[k + 2], d2[k + 2], d1[k + 3]],
            [d1[k + 2], d0[k + 3], d2[k + 3]],
        )
    }
}
