//! The pieces of a new board.
ghost use Rattle.std.specs.Prelude.{◌≡◌, ◌<◌, IfOk, replicate};
ghost use Rattle.model_sender.specs.Interleaver.{row_of};
ghost use Rattle.qpp_table.specs.Qpp.{row_in};
ghost use Rattle.cell_shares.specs.Shares.{cell_values, name_of};
ghost use Rattle.model_receiver.specs.HalfIteration.{none_left};
ghost use Rattle.model_receiver.specs.Windows.{zero_cell};
ghost use Rattle.half_iteration.specs.Views.{AreStreams};
ghost use Rattle.window_workers.specs.declared.job.DecodingJob.{DecodingJob};
ghost use Rattle.window_workers.specs.Commons.{IsProgress};
ghost use Rattle.window_workers.specs.HalfEnds.{AreAllTools};
ghost use Rattle.window_workers.specs.Openings.{AreFirst};
ghost use Rattle.window_workers.specs.Pieces.{AreTools};

use crate::assembly::put_together;
use crate::common::{Progress, Stage, WindowCommon};
use crate::order::order_of;
use crate::piece::{Tools, WindowPiece};
use crate::view::WindowView;
use cell_shares::Cells;
use half_iteration::{BordersLeft, Views};
use lte_bits::{Bit, List, NoMemory, SoftStreams};
use qpp_table::qpp;
use std::alloc::Global;
use std::snapshot::Snapshot;
use window_decode::{Ext, Shape, Work};

/// Returns what a worker needs for window `t`.
fn tools_of_window(alloc: Global, views: &Views<'_>, t: usize) -> Result<Tools, NoMemory>
    requires window { t < views.now.shape.windows }
    ensures tools { IfOk result (λ tools. (job : DecodingJob) → job.streams ≡ views.now.streams.now
        → job.shape ≡ views.now.shape → AreTools job t tools) }
    ensures left { IfOk result (λ tools. tools.left ≡ none_left) }
{
    let natural = WindowView::new(alloc, views, 0, t)?;
    let interleaved = WindowView::new(alloc, views, 1, t)?;
    let work = Work::new(alloc, views.width())?;
    Ok(Tools {
        streams: Snapshot::of(views.streams),
        shape: Snapshot::of(&views.shape),
        natural,
        interleaved,
        work,
        left: BordersLeft::none(),
    })
}

/// Returns the tools of all windows, from last to first.
fn all_tools(alloc: Global, views: &Views<'_>) -> Result<Vec<Tools>, NoMemory>
    ensures { IfOk result (λ tools. (job : DecodingJob) → job.streams ≡ views.now.streams.now
        → job.shape ≡ views.now.shape → AreAllTools job tools.items) }
{
    let windows = views.windows();
    let mut tools = Vec::with_capacity(alloc, windows)?;
    for i in 0..windows {
        tools.push(tools_of_window(alloc, views, windows - 1 - i)?)?;
    }
    Ok(tools)
}

/// Returns the progress before half 0.
fn first_progress(alloc: Global, views: &Views<'_>) -> Result<Progress, NoMemory>
    ensures interleaver { IfOk result (λ p. row_in p.interleaver ≡ row_of views.now.shape.k) }
    ensures progress { IfOk result (λ p. (job : DecodingJob) → job.streams ≡ views.now.streams.now
        → job.shape ≡ views.now.shape → IsProgress job 0 0 p) }
{
    let shape = views.shape;
    let interleaver = qpp(shape.k()).unwrap();
    Ok(Progress {
        shape,
        interleaver,
        even_tail: views.tail(0),
        odd_tail: views.tail(1),
        left: vec![in alloc; BordersLeft::none(); shape.windows()]?,
        bits: vec![in alloc; Bit::Zero; shape.k()]?,
    })
}

/// Returns the cells before half 0.
fn zero_cells(alloc: Global, shape: &Shape) -> Result<Cells<Ext>, NoMemory>
    ensures values { IfOk result (λ cells. cell_values cells ≡ replicate shape.now.k zero_cell) }
    ensures count { IfOk result (λ cells. (name_of cells).count ≡ shape.now.k) }
    ensures windows { IfOk result (λ cells. (name_of cells).windows ≡ shape.now.windows) }
{
    let values = vec![in alloc; Ext::ZERO; shape.k()]?;
    Cells::new(alloc, List::from_vec(values), shape.windows())
}

/// Returns the pieces and the common value of half 0.
pub(crate) fn first_pieces(
    alloc: Global,
    streams: &SoftStreams,
    shape: &Shape,
) -> Result<(Vec<WindowPiece>, WindowCommon), NoMemory>
    requires { AreStreams streams.now shape.now }
    ensures { IfOk result (λ made. AreFirst streams.now shape.now made.0.items made.1) }
{
    let views = Views::new(alloc, streams, shape)?;
    let progress = first_progress(alloc, &views)?;
    let tools = all_tools(alloc, &views)?;
    let cells = zero_cells(alloc, shape)?;
    let mut pieces = Vec::with_capacity(alloc, shape.windows())?;
    let shares = cells.split(order_of(progress.interleaver, 0));
    let left = progress.left.as_slice();
    let rooms = put_together(&mut pieces, shares, tools, left, progress.tail(0));
    let stage = Stage::Running(progress, rooms);
    Ok((pieces, WindowCommon { stage }))
}
