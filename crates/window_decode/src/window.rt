//! One window of the max-log decoder.
ghost use Rattle.std.specs.Prelude.{◌≡◌, ◌<◌, ◌≤◌, ℤ, ◌+ℤ◌, length};
ghost use Rattle.model_receiver.specs.Borders.{IsBorder, at};
ghost use Rattle.model_receiver.specs.Windows.{cell_at, window_between};
ghost use Rattle.model_receiver.specs.Windows.{new_cells, forward_left, backward_left};
ghost use Rattle.window_decode.specs.Lanes.{IsRelative};
ghost use Rattle.window_decode.specs.Recursions.{cell_through};

use crate::border::Border;
use crate::ext::Ext;
use crate::recursion::{backward, extrinsic, forward};
use crate::step::Step;
use crate::strip::Strip;
use crate::work::Work;
use std::simd::prelude::*;

/// Returns the branch metrics of position `j`.
fn step_at<S: Strip>(strip: &S, j: usize) -> Step
    requires { j < length (S.cells strip.now) }
    ensures input { result.input
        ≡ at (S.systematic strip.now) j +ℤ (cell_at (S.cells strip.now) j).value }
    ensures parity { result.parity ≡ at (S.parity strip.now) j }
{
    let cell = strip.cell(j);
    Step {
        input: strip.sys(j) + cell.value,
        parity: strip.par(j),
    }
}

/// Returns the new cell of a position, from the metrics before and after it.
fn new_cell(before: i16x8, after: i16x8, step: Step) -> Ext
    requires before { IsRelative before }
    requires after { IsRelative after }
    ensures { (s c : ℤ) → step.input ≡ s +ℤ c
        → result ≡ cell_through before after s step.parity c }
{
    Ext::from_extrinsic(extrinsic(before, after, step.parity), step.input)
}

/// Writes a window's new cells to the strip. Returns the forward metrics after the last position and the
/// backward metrics before the first, relative to those of state 0.
fn sweep<S: Strip>(
    rows: &mut Vec<i16x8>,
    alpha_in: &Border,
    beta_in: &Border,
    strip: &mut S,
) -> (i16x8, i16x8)
    requires least { 8 ≤ length (S.cells strip.old) }
    requires room { length (S.cells strip.old) ≤ length rows.old.items }
    ensures cells { S.cells strip.new ≡ new_cells (window_between alpha_in.now beta_in.now
        (S.systematic strip.old) (S.parity strip.old) (S.cells strip.old)) }
    ensures forward { result.0 ≡ forward_left (window_between alpha_in.now beta_in.now
        (S.systematic strip.old) (S.parity strip.old) (S.cells strip.old)) }
    ensures backward { result.1 ≡ backward_left (window_between alpha_in.now beta_in.now
        (S.systematic strip.old) (S.parity strip.old) (S.cells strip.old)) }
    ensures borders { IsBorder result.0 × IsBorder result.1 }
    ensures systematic { S.systematic strip.new ≡ S.systematic strip.old }
    ensures parity { S.parity strip.new ≡ S.parity strip.old }
    ensures rest { S.rest strip.new ≡ S.rest strip.old }
    ensures room { length rows.new.items ≡ length rows.old.items }
{
    let width = strip.width();
    let mut before = alpha_in.lanes();
    for j in 0..width {
        rows[j] = before;
        let step = step_at(strip, j);
        before = forward(before, step);
    }
    let mut after = beta_in.lanes();
    for i in 0..width {
        let j = width - 1 - i;
        let step = step_at(strip, j);
        let cell = new_cell(rows[j], after, step);
        strip.set_cell(j, cell);
        after = backward(after, step);
    }
    (before, after)
}

/// Decodes one window between two borders: writes its new cells to the strip, and returns the forward border
/// at its end and the backward border at its start. The strip's width is at least 8 and at most the room.
pub fn run_window<S: Strip>(
    work: &mut Work,
    alpha_in: &Border,
    beta_in: &Border,
    strip: &mut S,
) -> (Border, Border)
    requires least { 8 ≤ length (S.cells strip.old) }
    requires room { length (S.cells strip.old) ≤ work.old }
    ensures cells { S.cells strip.new ≡ new_cells (window_between alpha_in.now beta_in.now
        (S.systematic strip.old) (S.parity strip.old) (S.cells strip.old)) }
    ensures forward { result.0 ≡ forward_left (window_between alpha_in.now beta_in.now
        (S.systematic strip.old) (S.parity strip.old) (S.cells strip.old)) }
    ensures backward { result.1 ≡ backward_left (window_between alpha_in.now beta_in.now
        (S.systematic strip.old) (S.parity strip.old) (S.cells strip.old)) }
    ensures systematic { S.systematic strip.new ≡ S.systematic strip.old }
    ensures parity { S.parity strip.new ≡ S.parity strip.old }
    ensures rest { S.rest strip.new ≡ S.rest strip.old }
    ensures room { work.new ≡ work.old }
{
    let (alpha_out, beta_out) = sweep(&mut work.rows, alpha_in, beta_in, strip);
    (Border::from_lanes(alpha_out), Border::from_lanes(beta_out))
}
