//! Boards of tiles, played through by seats of one thread.
ghost use Rattle.std.specs.Prelude.{◌≡◌, ◌+◌, ◌<◌, ◌≤◌, IfOk, length};
ghost use Rattle.phase_board.specs.Boards.{board_job};
ghost use Rattle.phase_board.specs.Seats.{IsIdleOf, IsWorkingOf, IsTurningOf, idle_view};
ghost use Rattle.phase_board.specs.ClaimWord.{IsStopped};

use phase_board::{Board, Claim, Finish, Idle, Piece, Turning, Working};
use std::alloc::{AllocError, Global};
use std::process::Abort;
use std::test::Fail;

// A piece of a board with so many windows.
#[derive(Clone, Copy)]
struct Tile {
    windows: usize,
}

impl Piece for Tile {
    type Common = u32;

    type Job = usize;

    ghost job = { λ p. p.windows };

    ghost windows = { λ j. j };

    ghost ready = { λ _ _ _ _. Unit {0} };

    ghost done = { λ _ _ _ _. Unit {0} };

    ghost common = { λ _ _ _. Unit {0} };

    ghost ended = { λ _ _ _. Unit {0} };
}

/// Returns a board of so many tiles with the common value 7, and its first seat.
fn new_board(
    rt: &impl Abort,
    alloc: Global,
    windows: usize,
) -> Result<(Board<Tile>, Idle<Tile>), AllocError>
    requires { (0 < windows) × (windows ≤ 64) }
    ensures { IfOk result (λ made. IsIdleOf made.0 made.1) }
{
    let pieces = vec![in alloc; Tile { windows }; windows]?;
    match Board::new(alloc, pieces, 7) {
        Ok(made) => Ok(made),
        Err(_refused) => panic!(rt; "no memory"),
    }
}

fn draws(
    rt: &impl Abort,
    board: &Board<Tile>,
    seat: Idle<Tile>,
    half: u32,
    window: u32,
) -> Working<Tile>
    requires { IsIdleOf board.now seat }
    ensures { IsWorkingOf board.now result }
{
    match board.claim(seat) {
        Claim::Taken(working) => {
            assert!(rt; working.half() == half && working.window() == window);
            working
        }
        Claim::NotYet(_, _) => panic!(rt; "not yet"),
        Claim::Lost(_, _, _) => panic!(rt; "lost"),
        Claim::Over(_) => panic!(rt; "over"),
    }
}

fn has_to_wait(rt: &impl Abort, board: &Board<Tile>, seat: Idle<Tile>, half: u32) -> Idle<Tile>
    requires { IsIdleOf board.now seat }
    ensures { IsIdleOf board.now result }
{
    match board.claim(seat) {
        Claim::NotYet(idle, found) => {
            assert!(rt; found == half && !idle.saw_over());
            idle
        }
        Claim::Taken(_working) => panic!(rt; "a window"),
        Claim::Lost(_, _, _) => panic!(rt; "lost"),
        Claim::Over(_) => panic!(rt; "over"),
    }
}

fn sees_over(rt: &impl Abort, board: &Board<Tile>, seat: Idle<Tile>) -> Idle<Tile>
    requires { IsIdleOf board.now seat }
    ensures { IsIdleOf board.now result × IsStopped (idle_view result).found }
{
    match board.claim(seat) {
        Claim::Over(idle) => {
            assert!(rt; idle.saw_over());
            idle
        }
        Claim::Taken(_working) => panic!(rt; "a window"),
        Claim::Lost(_, _, _) => panic!(rt; "lost"),
        Claim::NotYet(_, _) => panic!(rt; "not yet"),
    }
}

fn gives(rt: &impl Abort, board: &Board<Tile>, seat: Working<Tile>) -> Idle<Tile>
    requires { IsWorkingOf board.now seat }
    ensures { IsIdleOf board.now result }
{
    match board.finish(seat) {
        Finish::Given(idle) => idle,
        Finish::Last(_turning) => panic!(rt; "the last one"),
    }
}

fn is_last(rt: &impl Abort, board: &Board<Tile>, seat: Working<Tile>) -> Turning<Tile>
    requires { IsWorkingOf board.now seat }
    ensures board { IsTurningOf board.now result }
    ensures pieces { length result.pieces.items ≡ board_job (λ p. p.windows) board.now }
{
    match board.finish(seat) {
        Finish::Last(turning) => turning,
        Finish::Given(_) => panic!(rt; "not the last one"),
    }
}

fn stops(board: &Board<Tile>, mut seat: Turning<Tile>, common: u32) -> Idle<Tile>
    requires { IsTurningOf board.now seat }
    ensures { IsIdleOf board.now result × IsStopped (idle_view result).found }
{
    seat.pieces.clear();
    seat.common = common;
    board.stop(seat)
}

#[test]
fn two_seats_turn_and_stop(rt: HostRuntime) -> Result<(), Fail> {
    let (board, seat) = new_board(&rt, rt.alloc(), 2)?;
    let (first, second) = board.split_seat(seat);
    let one = draws(&rt, &board, first, 0, 0);
    let two = draws(&rt, &board, second, 0, 1);
    let first = gives(&rt, &board, one);
    let first = has_to_wait(&rt, &board, first, 0);
    let turning = is_last(&rt, &board, two);
    assert!(rt; turning.half() == 0 && turning.common == 7 && turning.pieces.len() == 2);
    let second = board.turn(turning);
    assert!(rt; !second.saw_over());
    let first = gives(&rt, &board, draws(&rt, &board, first, 1, 0));
    let last = is_last(&rt, &board, draws(&rt, &board, first, 1, 1));
    assert!(rt; last.half() == 1);
    let first = board.join_seat(stops(&board, last, 9), second);
    assert!(rt; first.saw_over());
    let (common, closed) = board.close(first);
    assert!(rt; common == 9 && closed.half() == 1);
    Ok(())
}

#[test]
fn a_claim_after_the_stop_is_over(rt: HostRuntime) -> Result<(), Fail> {
    let (board, seat) = new_board(&rt, rt.alloc(), 2)?;
    let (first, second) = board.split_seat(seat);
    let one = draws(&rt, &board, first, 0, 0);
    let two = draws(&rt, &board, second, 0, 1);
    let first = gives(&rt, &board, one);
    let stopped = stops(&board, is_last(&rt, &board, two), 9);
    assert!(rt; stopped.saw_over());
    let first = sees_over(&rt, &board, first);
    let (common, closed) = board.close(first);
    assert!(rt; common == 9 && closed.half() == 0);
    Ok(())
}

#[test]
fn seats_may_be_dropped_idle(rt: HostRuntime) -> Result<(), Fail> {
    let (board, seat) = new_board(&rt, rt.alloc(), 3)?;
    let (first, second) = board.split_seat(seat);
    drop(second);
    let first = gives(&rt, &board, draws(&rt, &board, first, 0, 0));
    let (first, third) = board.split_seat(first);
    drop(third);
    let first = gives(&rt, &board, draws(&rt, &board, first, 0, 1));
    let last = is_last(&rt, &board, draws(&rt, &board, first, 0, 2));
    assert!(rt; last.pieces.len() == 3);
    let first = stops(&board, last, 9);
    let (common, closed) = board.close(first);
    assert!(rt; common == 9 && closed.half() == 0);
    Ok(())
}
