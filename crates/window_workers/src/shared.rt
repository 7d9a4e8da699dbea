//! A code block decoded by several workers.
ghost use Rattle.std.specs.Prelude.{◌≡◌, ◌+◌, ◌-◌, ◌*◌, ◌<◌, ◌≤◌, length, IfOk};
ghost use Rattle.std.specs.Thread.{IsSync};
ghost use Rattle.phase_board.specs.ClaimWord.{IsStopped};
ghost use Rattle.phase_board.specs.Closings.{closed_job};
ghost use Rattle.phase_board.specs.Seats.{IsIdleOf, idle_view};
ghost use Rattle.model_receiver.specs.Decoding.{code_result};
ghost use Rattle.window_workers.specs.Pieces.{job_of_piece};

use crate::gate::Gate;
use crate::opening::open_board;
use crate::piece::WindowPiece;
use crate::serving::serve;
use crate::taking::take_result;
use lte_bits::{NoMemory, SoftStreams};
use phase_board::{Board, Closed, Idle};
use std::alloc::Global;
use std::sync::Wait;
use std::thread::{Threads, join};
use window_decode::{CodeResult, Shape};

/// Has `workers` workers serve the board.
fn serve_all<R: Threads + Wait + Sync, G: Gate + Sync>(
    rt: &R,
    board: &Board<WindowPiece>,
    seat: Idle<WindowPiece>,
    workers: usize,
    gate: &G,
) -> Idle<WindowPiece>
    requires { IsIdleOf board.now seat }
    ensures board { IsIdleOf board.now result }
    ensures over { IsStopped (idle_view result).found }
{
    if workers <= 1 {
        return serve(rt, board, seat, gate);
    }
    let (one, two) = board.split_seat(seat);
    let (one, two) = join(
        rt,
        move || -> Idle<WindowPiece>
            requires { IsSync R.row × IsSync G.row × (1 < workers) × IsIdleOf board.now one }
            ensures { IsIdleOf board.entry.now result × IsStopped (idle_view result).found }
        { serve_all(rt, board, one, workers / 2, gate) },
        move || -> Idle<WindowPiece>
            requires { IsSync R.row × IsSync G.row × (1 < workers) × IsIdleOf board.now two }
            ensures { IsIdleOf board.entry.now result × IsStopped (idle_view result).found }
        { serve_all(rt, board, two, workers - workers / 2, gate) },
    );
    board.join_seat(one, two)
}

/// Decodes a code block with 1 to 16 workers: returns the result of the first iteration whose check holds, or
/// else of the last that the shape allows, and the evidence of the board on which they worked. The streams
/// have length K + 4, and as many fillers as the shape. All memory is allocated before a worker starts. If no
/// thread can be created, the workers run one after the other.
pub fn decode_block_shared<R: Threads + Wait + Sync, G: Gate + Sync>(
    rt: &R,
    alloc: Global,
    streams: &SoftStreams,
    shape: &Shape,
    workers: usize,
    gate: &G,
) -> Result<(CodeResult, Closed<WindowPiece>), NoMemory>
    requires fill { streams.now.fill ≡ shape.now.f }
    requires d0 { length streams.now.d0 ≡ shape.now.k + 4 }
    requires d1 { length streams.now.d1 ≡ shape.now.k + 4 }
    requires d2 { length streams.now.d2 ≡ shape.now.k + 4 }
    requires some { 1 ≤ workers }
    requires few { workers ≤ 16 }
    ensures result { IfOk result (λ r. r.0 ≡ code_result streams.now shape.now) }
    ensures streams { IfOk result (λ r. (closed_job job_of_piece r.1).streams ≡ streams.now) }
    ensures shape { IfOk result (λ r. (closed_job job_of_piece r.1).shape ≡ shape.now) }
    ensures half { IfOk result (λ r. r.1.half ≡ 2 * r.0.iterations - 1) }
{
    let (board, seat) = open_board(alloc, streams, shape)?;
    let seat = serve_all(rt, &board, seat, workers, gate);
    let (common, closed) = board.close(seat);
    Ok((take_result(common), closed))
}
