//! The end of a half, by the worker that runs its last window.
ghost use Rattle.std.specs.Prelude.{◌≡◌, ◌+◌, ◌%◌, ◌<◌, ◌≤◌, suc, [], length, vec_capacity, IfOk, IfErr};
ghost use Rattle.cell_shares.specs.Shares.{name_of, cell_values};
ghost use Rattle.phase_board.specs.Boards.{board_job};
ghost use Rattle.phase_board.specs.Seats.{IsIdleOf, IsTurningOf, idle_view, turning_view};
ghost use Rattle.window_workers.specs.Jobs.{IsJob, before_half};
ghost use Rattle.window_workers.specs.Commons.{IsCommonOf, IsProgress, IsResultAt, HasRooms};
ghost use Rattle.window_workers.specs.HalfEnds.{AreAllDone, AreAllReady, AreAllTools, HaveLeft, IsAfter};
ghost use Rattle.window_workers.specs.Pieces.{job_of_piece};

use crate::assembly::{put_together, take_apart, take_left};
use crate::bits::decide;
use crate::common::{Progress, Rooms, Stage, WindowCommon};
use crate::order::order_of;
use crate::piece::{Tools, WindowPiece};
use cell_shares::{Cells, join};
use half_iteration::{holds, result_in};
use phase_board::{Board, Idle, Turning};
use std::snapshot::Snapshot;
use window_decode::{CodeResult, Ext};

/// Returns the result, if the decoding of a piece's job ends with `half` and these cells: `half` is the
/// second of an iteration, and the check holds or the iteration is the last. Otherwise returns the progress.
fn decided(
    about: &Snapshot<WindowPiece>,
    progress: Progress,
    cells: &Cells<Ext>,
    half: u32,
) -> Result<CodeResult, Progress>
    requires job { IsJob (job_of_piece about.now.value) }
    requires progress { IsProgress (job_of_piece about.now.value) half half progress }
    requires cells { cell_values cells.now ≡ (before_half (job_of_piece about.now.value) (suc half)).cells }
    ensures result { IfOk result (λ r. IsResultAt (job_of_piece about.now.value) half r) }
    ensures undecided { IfErr result (λ p. IsProgress (job_of_piece about.now.value) half (suc half) p) }
{
    if half % 2 == 0 {
        return Err(progress);
    }
    let mut progress = progress;
    let shape = progress.shape;
    let fill = shape.f();
    decide(cells, fill, progress.bits.as_mut_slice());
    let passed = holds(shape.kind(), progress.bits.as_slice());
    let iteration = (half as usize + 1) / 2;
    if !passed && iteration < shape.limit() {
        return Err(progress);
    }
    let Progress { bits, .. } = progress;
    Ok(result_in(fill, bits, iteration, passed))
}

/// Assembles the pieces of the half after `half`, from the cells after `half`.
fn next_half(
    about: &Snapshot<WindowPiece>,
    pieces: &mut Vec<WindowPiece>,
    cells: Cells<Ext>,
    tools: Vec<Tools>,
    progress: &mut Progress,
    half: u32,
) -> Rooms
    requires none { pieces.old.items ≡ [] }
    requires room { (job_of_piece about.now.value).shape.windows ≤ vec_capacity pieces.old }
    requires job { IsJob (job_of_piece about.now.value) }
    requires name { name_of cells ≡ (job_of_piece about.now.value).name }
    requires cells { cell_values cells ≡ (before_half (job_of_piece about.now.value) (suc half)).cells }
    requires tools { AreAllTools (job_of_piece about.now.value) tools.items }
    requires left { HaveLeft (job_of_piece about.now.value) half tools.items }
    requires progress { IsProgress (job_of_piece about.now.value) half (suc half) progress.old }
    ensures pieces { AreAllReady (job_of_piece about.now.value) (suc half) pieces.new.items }
    ensures progress { IsProgress (job_of_piece about.now.value) (suc half) (suc half) progress.new }
    ensures rooms { HasRooms (job_of_piece about.now.value).shape.windows result }
{
    let shares = cells.split(order_of(progress.interleaver, half + 1));
    let tail = progress.tail(half + 1);
    let rooms = put_together(pieces, shares, tools, progress.left.as_slice(), tail);
    take_left(pieces.as_slice(), progress.left.as_mut_slice());
    rooms
}

/// Returns what comes after `half`, whose pieces are done: the result, or the pieces of the next half.
fn after_half(
    about: &Snapshot<WindowPiece>,
    pieces: &mut Vec<WindowPiece>,
    progress: Progress,
    rooms: Rooms,
    half: u32,
) -> Stage
    requires job { IsJob (job_of_piece about.now.value) }
    requires pieces { AreAllDone (job_of_piece about.now.value) half pieces.old.items }
    requires progress { IsProgress (job_of_piece about.now.value) half half progress }
    requires rooms { HasRooms (job_of_piece about.now.value).shape.windows rooms }
    ensures { IsAfter (job_of_piece about.now.value) half pieces.new.items result }
{
    let (shares, tools) = take_apart(pieces, rooms);
    let cells = join(shares);
    match decided(about, progress, &cells, half) {
        Ok(result) => Stage::Decided(result),
        Err(undecided) => {
            let mut progress = undecided;
            let rooms = next_half(about, pieces, cells, tools, &mut progress, half);
            Stage::Running(progress, rooms)
        }
    }
}

/// Turns the board to the next half, or stops it with the result.
pub(crate) fn half_ended(
    board: &Board<WindowPiece>,
    seat: Turning<WindowPiece>,
) -> Idle<WindowPiece>
    requires board { IsTurningOf board.now seat }
    requires pieces { AreAllDone (board_job job_of_piece board.now) seat.half seat.pieces.items }
    requires common { IsCommonOf (board_job job_of_piece board.now) seat.half seat.common }
    requires windows { 0 < (board_job job_of_piece board.now).shape.windows }
    ensures board { IsIdleOf board.now result }
    ensures drawn { (idle_view result).drawn ≡ (turning_view seat).drawn }
    ensures done { (idle_view result).done ≡ (turning_view seat).done }
{
    let mut seat = seat;
    let half = seat.half();
    let about = Snapshot::of(&seat.pieces[0]);
    let WindowCommon { stage } = seat.common;
    let Stage::Running(progress, rooms) = stage else {
        unreachable!()
    };
    match after_half(&about, &mut seat.pieces, progress, rooms, half) {
        Stage::Running(progress, rooms) => {
            seat.common = WindowCommon {
                stage: Stage::Running(progress, rooms),
            };
            board.turn(seat)
        }
        Stage::Decided(result) => {
            seat.common = WindowCommon {
                stage: Stage::Decided(result),
            };
            board.stop(seat)
        }
    }
}
