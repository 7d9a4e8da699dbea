//! Half an iteration in lock step.
ghost use Rattle.std.specs.Prelude.{◌≡◌, ◌≤◌, length};
ghost use Rattle.model_receiver.specs.HalfIteration.{window_width, after};
ghost use Rattle.half_iteration.specs.Runs.{start_of};

use crate::borders::{leave, take_left};
use crate::lane_views::LaneViews;
use crate::scratch::LaneScratch;
use half_iteration::BordersLeft;
use lane_banks::Banks;
use lock_step::BordersIn;
use window_decode::Border;

/// Decodes half `h` of a code block, and writes the new cells. `left` has each window's borders from two
/// halves ago, and receives the new ones; the other lists of borders are scratch space.
pub fn decode_half<const N: usize>(
    views: &LaneViews<'_, N>,
    h: usize,
    scratch: &mut LaneScratch<N>,
    alpha_in: &mut [Border],
    beta_in: &mut [Border],
    alpha_out: &mut [Border],
    beta_out: &mut [Border],
    banks: &mut Banks<N>,
    left: &mut [BordersLeft],
)
    requires room { window_width views.now.views.shape ≤ scratch.old.kernel }
    requires cells { length banks.old ≡ views.now.views.shape.k }
    requires left { length left.old ≡ N }
    requires alpha_in { length alpha_in.old ≡ N }
    requires beta_in { length beta_in.old ≡ N }
    requires alpha_out { length alpha_out.old ≡ N }
    requires beta_out { length beta_out.old ≡ N }
    ensures room { scratch.new.kernel ≡ scratch.old.kernel }
    ensures cells { banks.new
        ≡ (after views.now.views.streams.now views.now.views.shape h (start_of banks.old left.old)).cells }
    ensures left { left.new
        ≡ (after views.now.views.streams.now views.now.views.shape h (start_of banks.old left.old)).left }
{
    let windows = views.views.windows();
    take_left(windows, left, views.views.tail(h), alpha_in, beta_in);
    let borders = BordersIn {
        alpha: alpha_in,
        beta: beta_in,
    };
    views.run(h, scratch, borders, alpha_out, beta_out, banks);
    leave(alpha_out, beta_out, left);
}
