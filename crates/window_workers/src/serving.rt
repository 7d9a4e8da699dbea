//! A worker.
ghost use Rattle.std.specs.Prelude.{◌≡◌, ◌<◌, ◌+◌, ◌*◌, ◌++◌, ◌∷◌, []};
ghost use Rattle.phase_board.specs.Boards.{board_job};
ghost use Rattle.phase_board.specs.ClaimWord.{IsStopped, half_of};
ghost use Rattle.phase_board.specs.Seats.{IsIdleOf, IsWorkingOf, idle_view, working_view};
ghost use Rattle.window_workers.specs.Pieces.{job_of_piece, IsReady};
ghost use Rattle.window_workers.specs.Served.{GrewAlike};

use crate::gate::Gate;
use crate::half_end::half_ended;
use crate::piece::WindowPiece;
use crate::window::run_piece;
use phase_board::{Board, Claim, Finish, Idle, Working};
use std::sync::Wait;
use std::thread;

/// Runs the window of a seat, and ends the half if it was the last one.
fn work<G: Gate>(
    board: &Board<WindowPiece>,
    seat: Working<WindowPiece>,
    gate: &G,
) -> Idle<WindowPiece>
    requires board { IsWorkingOf board.now seat }
    requires window { seat.window < (board_job job_of_piece board.now).shape.windows }
    requires ready { IsReady (board_job job_of_piece board.now) seat.half seat.window seat.piece }
    ensures board { IsIdleOf board.now result }
    ensures drawn { (idle_view result).drawn ≡ (working_view seat).drawn }
    ensures done { (idle_view result).done ≡ (working_view seat).done
        ++ (half_of (working_view seat).loaded * (board_job job_of_piece board.now).shape.windows
        + seat.window) ∷ [] }
{
    let mut seat = seat;
    gate.enter(seat.half(), seat.window());
    let half = seat.half();
    seat.piece = run_piece(seat.piece, half);
    match board.finish(seat) {
        Finish::Given(idle) => idle,
        Finish::Last(turning) => half_ended(board, turning),
    }
}

/// Draws windows and runs them, half after half, until the board is stopped, and returns the seat. Allocates
/// nothing, and waits for the windows that other seats have drawn.
pub fn serve<R: Wait, G: Gate>(
    rt: &R,
    board: &Board<WindowPiece>,
    seat: Idle<WindowPiece>,
    gate: &G,
) -> Idle<WindowPiece>
    requires { IsIdleOf board.now seat }
    ensures board { IsIdleOf board.now result }
    ensures over { IsStopped (idle_view result).found }
    ensures grew { GrewAlike (idle_view seat) (idle_view result) }
{
    let mut seat = seat;
    for _ in rt.forever() {
        match board.claim(seat) {
            Claim::Taken(working) => seat = work(board, working, gate),
            Claim::NotYet(idle, _) => {
                // The worker that is waited for may be descheduled.
                thread::yield_now();
                seat = idle;
            }
            Claim::Lost(idle, _, _) => seat = idle,
            Claim::Over(idle) => return idle,
        }
    }
    unreachable!()
}
