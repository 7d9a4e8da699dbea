//! The inputs of a code block's half iterations in lock step.
ghost use Rattle.std.specs.Prelude.{◌≡◌, ◌≤◌, length};
ghost use Rattle.model_sender.specs.Interleaver.{place};
ghost use Rattle.model_receiver.specs.HalfIteration.{window_width};
ghost use Rattle.lane_banks.specs.Permutations.{AreApart, IsTable};
ghost use Rattle.lane_windows.specs.Halves.{AreRowsOf};

use crate::crossed::{run_crossed, run_straight};
use crate::half_rows::HalfRows;
use crate::scratch::LaneScratch;
use half_iteration::Views;
use lane_banks::{Banks, LanePermutations, permutations_of};
use lock_step::BordersIn;
use lte_bits::{NoMemory, SoftStreams};
use std::alloc::Global;
use window_decode::{Border, Shape};

/// The soft values of a code block by rows, in both orders, and the banks of each step in the second one.
#[derive(Drop)]
pub struct LaneViews<'a, const N: usize> {
    pub views: Views<'a>,
    natural: HalfRows<N>,
    interleaved: HalfRows<N>,
    permutations: LanePermutations<N>,
    ghost few: { N ≤ 64 },
    pub ghost windows: { views.shape.windows ≡ N },
    ghost natural_rows: { AreRowsOf N views.streams.now views.shape 0 natural.systematic.items
        natural.parity.items },
    ghost interleaved_rows: { AreRowsOf N views.streams.now views.shape 1 interleaved.systematic.items
        interleaved.parity.items },
    ghost steps: { length permutations.rows.items ≡ window_width views.shape },
    ghost bank_steps: { length permutations.banks.items ≡ window_width views.shape },
    ghost table: { IsTable N (window_width views.shape) (place views.shape.k) permutations.rows.items
        permutations.banks.items },
    ghost apart: { AreApart N (window_width views.shape) (place views.shape.k) },
}

impl<'a, const N: usize> LaneViews<'a, N> {
    ghost use Rattle.std.specs.Prelude.{IfOk};
    ghost use Rattle.half_iteration.specs.Views.{AreStreams};
    ghost use Rattle.window_rows.specs.Rows.{IsLaneCount};
    ghost use Rattle.lock_step.specs.Lanes.{AreBordersOf};
    ghost use Rattle.lane_windows.specs.Halves.{HaveRunHalf};

    /// Allocates the views of a code block of N windows. The streams have length K + 4, and the shape's
    /// fillers.
    pub fn new(
        alloc: Global,
        streams: &'a SoftStreams,
        shape: &Shape,
    ) -> Result<LaneViews<'a, N>, NoMemory>
        requires lanes { IsLaneCount N }
        requires windows { shape.now.windows ≡ N }
        requires streams { AreStreams streams.now shape.now }
        ensures streams { IfOk result (λ v. v.views.streams.now ≡ streams.now) }
        ensures shape { IfOk result (λ v. v.views.shape ≡ shape.now) }
    {
        let views = Views::new(alloc, streams, shape)?;
        let natural = HalfRows::new(alloc, &views, 0)?;
        let interleaved = HalfRows::new(alloc, &views, 1)?;
        let permutations = permutations_of(alloc, views.places(1), views.width())?;
        Ok(LaneViews {
            views,
            natural,
            interleaved,
            permutations,
        })
    }

    /// Decodes the windows of half `h` between their borders.
    pub fn run(
        &self,
        h: usize,
        scratch: &mut LaneScratch<N>,
        borders: BordersIn<'_>,
        alpha_out: &mut [Border],
        beta_out: &mut [Border],
        banks: &mut Banks<N>,
    )
        requires room { window_width self.now.views.shape ≤ scratch.old.kernel }
        requires cells { length banks.old ≡ self.now.views.shape.k }
        requires borders { AreBordersOf N borders }
        requires alpha_out { length alpha_out.old ≡ N }
        requires beta_out { length beta_out.old ≡ N }
        ensures room { scratch.new.kernel ≡ scratch.old.kernel }
        ensures ran { HaveRunHalf N self.now.views.streams.now self.now.views.shape h
            borders.entry.alpha.now borders.entry.beta.now banks.old banks.new alpha_out.new beta_out.new }
    {
        if h % 2 == 0 {
            let soft = self.natural.as_rows();
            run_straight(
                &mut scratch.kernel,
                borders,
                soft,
                alpha_out,
                beta_out,
                banks,
            );
        } else {
            let soft = self.interleaved.as_rows();
            run_crossed(
                scratch,
                &self.permutations,
                borders,
                soft,
                alpha_out,
                beta_out,
                banks,
            );
        }
    }
}
