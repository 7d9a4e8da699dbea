//! The decoder of a code block whose windows run in lock step.
ghost use Rattle.std.specs.Prelude.{◌≡◌, ◌≤◌, IfOk, length};
ghost use Rattle.model_receiver.specs.HalfIteration.{window_width};
ghost use Rattle.lane_windows.specs.Borders.{HaveWindows};

use crate::borders::Borders;
use crate::halves::decode_half;
use crate::lane_views::LaneViews;
use crate::scratch::LaneScratch;
use half_iteration::{BordersLeft, HalfDecoder};
use lane_banks::Banks;
use lte_bits::{Bit, NoMemory, SoftStreams};
use std::alloc::Global;
use window_decode::Shape;

/// The state of a code block's decoding: the cells of all places in banks, and the borders that each window
/// left in the last two halves.
#[derive(Drop)]
pub struct LaneDecoder<'a, const N: usize> {
    views: LaneViews<'a, N>,
    scratch: LaneScratch<N>,
    borders: Borders,
    banks: Banks<N>,
    left: Vec<BordersLeft>,
    left_before_last: Vec<BordersLeft>,
    ghost room: { window_width views.views.shape ≤ scratch.kernel },
    ghost border_room: { HaveWindows N borders },
    ghost all_places: { length banks ≡ views.views.shape.k },
    ghost all_windows: { length left.items ≡ N },
    ghost all_windows_earlier: { length left_before_last.items ≡ N },
}

impl<'a, const N: usize> LaneDecoder<'a, N> {
    ghost use Rattle.model_receiver.specs.HalfIteration.{opening};
    ghost use Rattle.half_iteration.specs.Views.{AreStreams};
    ghost use Rattle.window_rows.specs.Rows.{IsLaneCount};
    ghost use Rattle.lane_windows.specs.Progress.{before_of};

    /// Allocates the decoder of a code block of N windows, before its first half.
    pub fn new(
        alloc: Global,
        streams: &'a SoftStreams,
        shape: &Shape,
    ) -> Result<LaneDecoder<'a, N>, NoMemory>
        requires lanes { IsLaneCount N }
        requires windows { shape.now.windows ≡ N }
        requires streams { AreStreams streams.now shape.now }
        ensures streams { IfOk result (λ d. d.views.views.streams.now ≡ streams.now) }
        ensures shape { IfOk result (λ d. d.views.views.shape ≡ shape.now) }
        ensures before { IfOk result (λ d. before_of d ≡ opening shape.now) }
    {
        let views = LaneViews::<N>::new(alloc, streams, shape)?;
        let width = views.views.width();
        let scratch = LaneScratch::<N>::new(alloc, width)?;
        let borders = Borders::new(alloc, N)?;
        let banks = Banks::<N>::zeros(alloc, width)?;
        let left = vec![in alloc; BordersLeft::none(); N]?;
        let left_before_last = vec![in alloc; BordersLeft::none(); N]?;
        Ok(LaneDecoder {
            views,
            scratch,
            borders,
            banks,
            left,
            left_before_last,
        })
    }
}

impl<const N: usize> HalfDecoder for LaneDecoder<'_, N> {
    ghost use Rattle.lane_windows.specs.Progress.{before_of};

    ghost streams = { λ d. d.views.views.streams.now };

    ghost shape = { λ d. d.views.views.shape };

    ghost before = { before_of };

    fn half(self, h: usize) -> Self {
        let LaneDecoder {
            views,
            mut scratch,
            mut borders,
            mut banks,
            left,
            mut left_before_last,
        } = self;
        decode_half(
            &views,
            h,
            &mut scratch,
            borders.alpha_in.as_mut_slice(),
            borders.beta_in.as_mut_slice(),
            borders.alpha_out.as_mut_slice(),
            borders.beta_out.as_mut_slice(),
            &mut banks,
            left_before_last.as_mut_slice(),
        );
        LaneDecoder {
            views,
            scratch,
            borders,
            banks,
            left: left_before_last,
            left_before_last: left,
        }
    }

    fn decide(&self, bits: &mut [Bit]) {
        self.banks.decide(self.views.views.shape.f(), bits);
    }
}
