//! The decoder of a code block on one thread.
ghost use Rattle.std.specs.Prelude.{◌≡◌, ◌≤◌, IfOk, length};
ghost use Rattle.model_receiver.specs.HalfIteration.{window_width};

use crate::half::decode_half;
use half_iteration::{BordersLeft, HalfDecoder, Views, decide};
use lte_bits::{Bit, NoMemory, SoftStreams};
use std::alloc::Global;
use window_decode::{Ext, Shape, Work};

/// The state of a code block's decoding, window after window: the cells of all places, and the borders that
/// each window left in the last two halves.
#[derive(Drop)]
pub struct SerialDecoder<'a> {
    views: Views<'a>,
    work: Work,
    cells: Vec<Ext>,
    left: Vec<BordersLeft>,
    left_before_last: Vec<BordersLeft>,
    ghost room: { window_width views.shape ≤ work },
    ghost all_places: { length cells.items ≡ views.shape.k },
    ghost all_windows: { length left.items ≡ views.shape.windows },
    ghost all_windows_earlier: { length left_before_last.items ≡ views.shape.windows },
}

impl<'a> SerialDecoder<'a> {
    ghost use Rattle.model_receiver.specs.HalfIteration.{opening};
    ghost use Rattle.half_iteration.specs.Views.{AreStreams};
    ghost use Rattle.serial_decode.specs.Progress.{before_of};

    /// Returns a code block before its first half.
    pub fn new(
        alloc: Global,
        streams: &'a SoftStreams,
        shape: &Shape,
    ) -> Result<SerialDecoder<'a>, NoMemory>
        requires { AreStreams streams.now shape.now }
        ensures streams { IfOk result (λ d. d.views.streams.now ≡ streams.now) }
        ensures shape { IfOk result (λ d. d.views.shape ≡ shape.now) }
        ensures before { IfOk result (λ d. before_of d ≡ opening shape.now) }
    {
        let views = Views::new(alloc, streams, shape)?;
        let windows = views.windows();
        let work = Work::new(alloc, views.width())?;
        let cells = vec![in alloc; Ext::ZERO; shape.k()]?;
        let left = vec![in alloc; BordersLeft::none(); windows]?;
        let left_before_last = vec![in alloc; BordersLeft::none(); windows]?;
        Ok(SerialDecoder {
            views,
            work,
            cells,
            left,
            left_before_last,
        })
    }
}

impl HalfDecoder for SerialDecoder<'_> {
    ghost use Rattle.serial_decode.specs.Progress.{before_of};

    ghost streams = { λ d. d.views.streams.now };

    ghost shape = { λ d. d.views.shape };

    ghost before = { before_of };

    fn half(self, h: usize) -> Self {
        let SerialDecoder {
            views,
            mut work,
            cells,
            left,
            mut left_before_last,
        } = self;
        let cells = decode_half(&mut work, &views, h, cells, left_before_last.as_mut_slice());
        SerialDecoder {
            views,
            work,
            cells,
            left: left_before_last,
            left_before_last: left,
        }
    }

    fn decide(&self, bits: &mut [Bit]) {
        decide(self.cells.as_slice(), self.views.shape.f(), bits);
    }
}
