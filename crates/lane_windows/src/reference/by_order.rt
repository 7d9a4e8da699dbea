//! Windows in lock step over banks of cells, by an order of the places: the decoder runs them by
//! `LaneViews::run`, which has soft values in rows and permutations once for a code block.
ghost use Rattle.std.specs.Prelude.{◌≡◌, ℕ, ◌*◌, ◌/◌, ◌<◌, ◌≤◌, length, take};
ghost use Rattle.model_receiver.specs.Windows.{new_cells, forward_left, backward_left};
ghost use Rattle.cell_shares.specs.Orders.{place_in, IsOrderOf};
ghost use Rattle.window_rows.specs.Rows.{column, values_of_window, AreWithin, IsLaneCount};
ghost use Rattle.lock_step.specs.Lanes.{border_at, AreBordersOf, AreSoftRows};
ghost use Rattle.lane_windows.specs.Lanes.{cells_of_window, window_of, HaveRun};

use super::order_work::LaneWork;
use crate::crossed::{run_crossed, run_straight};
use crate::scratch::LaneScratch;
use cell_shares::Order;
use lane_banks::{Banks, LanePermutations, follow};
use lock_step::{BordersIn, SoftRows};
use lte_bits::Soft;
use window_decode::Border;
use window_rows::rows::lay_out;

/// Writes the rows of N*W values by position to the first `width` rows, which is W.
fn lay_front<const N: usize>(values: &[Soft], rows: &mut [[i16; N]], width: usize)
    requires long { N * width ≡ length values.now }
    requires room { width ≤ length rows.old }
    ensures columns { (t : ℕ) → t < N
        → column t (take width rows.new) ≡ values_of_window width values.now t }
    ensures within { AreWithin N 127 (take width rows.new) }
{
    lay_out(values, &mut rows[..width]);
}

/// Decodes N windows whose positions are at the places of an order.
fn run_in_order<const N: usize>(
    scratch: &mut LaneScratch<N>,
    permutations: &mut LanePermutations<N>,
    order: &Order,
    borders: BordersIn<'_>,
    soft: SoftRows<'_, N>,
    alpha_out: &mut [Border],
    beta_out: &mut [Border],
    banks: &mut Banks<N>,
)
    requires lanes { IsLaneCount N }
    requires order { IsOrderOf (N * (length banks.old / N)) order.now }
    requires least { 8 ≤ length banks.old / N }
    requires most { length banks.old / N ≤ 768 }
    requires room { length banks.old / N ≤ scratch.old.kernel }
    requires borders { AreBordersOf N borders }
    requires soft { AreSoftRows (length banks.old / N) soft }
    requires alpha_out { length alpha_out.old ≡ N }
    requires beta_out { length beta_out.old ≡ N }
    requires rows { length banks.old / N ≤ length permutations.old.rows.items }
    requires banks { length banks.old / N ≤ length permutations.old.banks.items }
    ensures room { scratch.new.kernel ≡ scratch.old.kernel }
    ensures rows { length permutations.new.rows.items ≡ length permutations.old.rows.items }
    ensures banks { length permutations.new.banks.items ≡ length permutations.old.banks.items }
    ensures ran { HaveRun (length banks.old / N) (place_in order.now) borders.entry soft.entry
        banks.old banks.new alpha_out.new beta_out.new }
{
    match order {
        Order::Natural => {
            run_straight(
                &mut scratch.kernel,
                borders,
                soft,
                alpha_out,
                beta_out,
                banks,
            );
        }
        Order::Interleaved(_) => {
            follow(permutations, order, soft.systematic.len());
            run_crossed(
                scratch,
                permutations,
                borders,
                soft,
                alpha_out,
                beta_out,
                banks,
            );
        }
    }
}

/// Decodes N windows of W positions in lock step between their borders: writes the new cells to the banks,
/// and the borders that each window leaves, the forward one in `alpha_out` and the backward one in
/// `beta_out`. `sys` and `par` have the N*W values by position. An interleaved order has N*W places, and the
/// work has room for W.
pub fn run_lock_step<const N: usize>(
    work: &mut LaneWork<N>,
    order: &Order,
    sys: &[Soft],
    par: &[Soft],
    alpha_in: &[Border],
    beta_in: &[Border],
    alpha_out: &mut [Border],
    beta_out: &mut [Border],
    banks: &mut Banks<N>,
)
    requires order { IsOrderOf (length banks.old) order.now }
    requires room { length banks.old / N ≤ work.old }
    requires systematic { length sys.now ≡ length banks.old }
    requires parity { length par.now ≡ length banks.old }
    requires alpha_in { length alpha_in.now ≡ N }
    requires beta_in { length beta_in.now ≡ N }
    requires alpha_out { length alpha_out.old ≡ N }
    requires beta_out { length beta_out.old ≡ N }
    ensures room { work.new ≡ work.old }
    ensures long { length banks.new ≡ length banks.old }
    ensures cells { (t : ℕ) → t < N → let w = length banks.old / N in
        cells_of_window w (place_in order.now) banks.new t
        ≡ new_cells (window_of w (place_in order.now) alpha_in.now beta_in.now sys.now par.now banks.old t) }
    ensures forward { (t : ℕ) → t < N → let w = length banks.old / N in border_at alpha_out.new t
        ≡ forward_left (window_of w (place_in order.now) alpha_in.now beta_in.now sys.now par.now banks.old t) }
    ensures backward { (t : ℕ) → t < N → let w = length banks.old / N in border_at beta_out.new t
        ≡ backward_left (window_of w (place_in order.now) alpha_in.now beta_in.now sys.now par.now banks.old t) }
{
    let width = banks.width();
    lay_front(sys, work.systematic.as_mut_slice(), width);
    lay_front(par, work.parity.as_mut_slice(), width);
    let borders = BordersIn {
        alpha: alpha_in,
        beta: beta_in,
    };
    let soft = SoftRows {
        systematic: &work.systematic.as_slice()[..width],
        parity: &work.parity.as_slice()[..width],
    };
    run_in_order(
        &mut work.scratch,
        &mut work.permutations,
        order,
        borders,
        soft,
        alpha_out,
        beta_out,
        banks,
    );
}
