//! N windows by rows. That their metrics fit in 16 bits is a law of window_decode, called where it is needed;
//! the call does nothing.
ghost use Rattle.std.specs.Prelude.{◌≡◌, ◌<◌, ◌≤◌, ℕ, ℤ, List, pos, ◌+ℤ◌, int_lt, length};
ghost use Rattle.model_receiver.specs.Borders.{at, number_for, relative};
ghost use Rattle.model_receiver.specs.Windows.{new_cells, forward_left, backward_left};
ghost use Rattle.window_decode.specs.Recursions.{step_gain, backward, cell_through};
ghost use Rattle.window_decode.specs.Metrics.{IsForwardRow, IsBackwardRow};
ghost use Rattle.window_rows.specs.Rows.{column, AreWithin, IsLaneCount};
ghost use Rattle.lock_step.specs.Lanes.{border_at, lane_window, window_at, decided_cells};
ghost use Rattle.lock_step.specs.Lanes.{AreSoft, AreBordersOf, AreSoftRows};
ghost use Rattle.lock_step.specs.Vectors.{IsSmall, AreMetrics, AreRelative, AreBorders};
ghost use Rattle.lock_step.specs.Vectors.{lane_gain, metrics_at, AreForwardRows};

use crate::borders::{put_borders, take_borders};
use crate::inputs::{BordersIn, SoftRows};
use crate::joined::write_extrinsic;
use crate::lanes::add;
use crate::metrics::{backward, forward, keep};
use crate::scratch::KernelScratch;
use window_decode::{Border, metrics_stay_near};

/// Writes the metrics before each position to the rows, and those after the last to `m`.
fn sweep_forward<const N: usize>(
    rows: &mut [[[i16; N]; 8]],
    m: &mut [[i16; N]; 8],
    sys: &[[i16; N]],
    par: &[[i16; N]],
    cells: &[[i16; N]],
)
    requires room { length sys.now ≤ length rows.old }
    requires parities { length par.now ≡ length sys.now }
    requires cells { length cells.now ≡ length sys.now }
    requires soft { AreSoft N sys.now par.now cells.now }
    requires start { AreBorders N m.old }
    ensures shapes { (j : ℕ) → j < length sys.now → AreMetrics N (metrics_at rows.new j) }
    ensures rows { (t : ℕ) → t < N
        → AreForwardRows t (column t m.old) sys.now par.now cells.now rows.new (length sys.now) }
    ensures shape { AreMetrics N m.new }
    ensures last { (t : ℕ) → t < N → IsForwardRow (column t m.old)
        (lane_gain t sys.now par.now cells.now) (length sys.now) (column t m.new) }
{
    metrics_stay_near();
    let mut x = [0; N];
    for j in 0..sys.len() {
        keep(m, &mut rows[j]);
        add(&sys[j], &cells[j], &mut x);
        forward(&rows[j], &x, &par[j], m);
    }
}

/// Writes the new cells of a position and their sums, and the metrics before it.
fn step_back<const N: usize>(
    alpha: &[[i16; N]; 8],
    beta: &mut [[i16; N]; 8],
    sys: &[i16; N],
    par: &[i16; N],
    cell: &mut [i16; N],
    sum: &mut [i16; N],
)
    requires alpha { AreRelative N alpha.now }
    requires beta { AreRelative N beta.old }
    requires systematic { IsSmall N 127 sys.now }
    requires parity { IsSmall N 127 par.now }
    requires cell { IsSmall N 511 cell.old }
    ensures shape { AreMetrics N beta.new }
    ensures metrics { (t : ℕ) → t < N → column t beta.new
        ≡ relative (backward (number_for (column t beta.old))
        (step_gain (at sys.now t +ℤ at cell.old t) (at par.now t))) }
    ensures cells { (t : ℕ) → t < N
        → record { value = at cell.new t; one = int_lt (at sum.new t) (pos 0) }
        ≡ cell_through (column t alpha.now) (column t beta.old)
        (at sys.now t) (at par.now t) (at cell.old t) }
    ensures sum { IsSmall N 32767 sum.new }
{
    let mut x = [0; N];
    add(sys, cell, &mut x);
    write_extrinsic(alpha, beta, par, &x, cell, sum);
    let mut after = [[0; N]; 8];
    keep(beta, &mut after);
    backward(&after, &x, par, beta);
}

/// Writes the new cells with their sums, and the metrics before the first position.
fn sweep_backward<const N: usize>(
    rows: &[[[i16; N]; 8]],
    m: &mut [[i16; N]; 8],
    sys: &[[i16; N]],
    par: &[[i16; N]],
    cells: &mut [[i16; N]],
    sums: &mut [[i16; N]],
)
    requires room { length sys.now ≤ length rows.now }
    requires parities { length par.now ≡ length sys.now }
    requires cells { length cells.old ≡ length sys.now }
    requires sums { length sums.old ≡ length sys.now }
    requires soft { AreSoft N sys.now par.now cells.old }
    requires rows { (j : ℕ) → j < length sys.now → AreRelative N (metrics_at rows.now j) }
    requires end { AreBorders N m.old }
    ensures shape { AreMetrics N m.new }
    ensures first { (t : ℕ) → t < N → IsBackwardRow (column t m.old)
        (lane_gain t sys.now par.now cells.old) 0 (length sys.now) (column t m.new) }
    ensures cells { (t : ℕ) (start : List ℤ) → t < N
        → AreForwardRows t start sys.now par.now cells.old rows.now (length sys.now)
        → decided_cells (column t cells.new) (column t sums.new)
        ≡ new_cells (lane_window t start (column t m.old) sys.now par.now cells.old) }
    ensures sums { AreWithin N 32767 sums.new }
{
    metrics_stay_near();
    let width = sys.len();
    for i in 0..width {
        let j = width - 1 - i;
        step_back(&rows[j], m, &sys[j], &par[j], &mut cells[j], &mut sums[j]);
    }
}

/// Decodes N windows between their borders, window `t` in lane `t` of each row. Writes the new cells with
/// their sums, and the forward and the backward border of each window.
pub fn run_rows<const N: usize>(
    scratch: &mut KernelScratch<N>,
    borders: BordersIn<'_>,
    soft: SoftRows<'_, N>,
    cells: &mut [[i16; N]],
    sums: &mut [[i16; N]],
    alpha_out: &mut [Border],
    beta_out: &mut [Border],
)
    requires lanes { IsLaneCount N }
    requires least { 8 ≤ length cells.old }
    requires room { length cells.old ≤ scratch.old }
    requires borders { AreBordersOf N borders }
    requires soft { AreSoftRows (length cells.old) soft }
    requires cells { AreWithin N 511 cells.old }
    requires sums { length sums.old ≡ length cells.old }
    requires alpha_out { length alpha_out.old ≡ N }
    requires beta_out { length beta_out.old ≡ N }
    ensures cells { (t : ℕ) → t < N → decided_cells (column t cells.new) (column t sums.new)
        ≡ new_cells (window_at t borders.entry soft.entry cells.old) }
    ensures within { AreWithin N 511 cells.new }
    ensures sums { AreWithin N 32767 sums.new }
    ensures forward { (t : ℕ) → t < N → border_at alpha_out.new t
        ≡ forward_left (window_at t borders.entry soft.entry cells.old) }
    ensures backward { (t : ℕ) → t < N → border_at beta_out.new t
        ≡ backward_left (window_at t borders.entry soft.entry cells.old) }
    ensures room { scratch.new ≡ scratch.old }
{
    metrics_stay_near();
    let rows = scratch.rows.as_mut_slice();
    let mut m = [[0; N]; 8];
    put_borders(borders.alpha, &mut m);
    sweep_forward(rows, &mut m, soft.systematic, soft.parity, cells);
    take_borders(&m, alpha_out);
    put_borders(borders.beta, &mut m);
    sweep_backward(rows, &mut m, soft.systematic, soft.parity, cells, sums);
    take_borders(&m, beta_out);
}
