//! A board for a code block.
ghost use Rattle.std.specs.Prelude.{◌≡◌, ◌+◌, ◌<◌, length, IfOk};
ghost use Rattle.phase_board.specs.Boards.{board_job};
ghost use Rattle.phase_board.specs.Seats.{IsIdleOf, idle_view};
ghost use Rattle.phase_board.specs.Lawful.{opening_view};
ghost use Rattle.window_workers.specs.Jobs.{IsJob};
ghost use Rattle.window_workers.specs.Commons.{IsCommonOf};
ghost use Rattle.window_workers.specs.HalfEnds.{AreAllReady};
ghost use Rattle.window_workers.specs.Pieces.{job_of_piece};

use crate::assembly::take_apart;
use crate::common::{Stage, WindowCommon};
use crate::opening_pieces::first_pieces;
use crate::piece::WindowPiece;
use cell_shares::join;
use lte_bits::{NoMemory, SoftStreams};
use phase_board::{Board, Idle, NewRefused};
use std::alloc::Global;
use std::snapshot::Snapshot;
use window_decode::Shape;

/// Disposes of the pieces of a board that wasn't made.
fn discard(about: &Snapshot<WindowPiece>, refused: NewRefused<WindowPiece>)
    requires pieces { AreAllReady (job_of_piece about.now.value) 0 refused.pieces.items }
    requires common { IsCommonOf (job_of_piece about.now.value) 0 refused.common }
    requires windows { 0 < (job_of_piece about.now.value).shape.windows }
{
    let NewRefused { pieces, common } = refused;
    let WindowCommon { stage } = common;
    let Stage::Running(_progress, rooms) = stage else {
        unreachable!()
    };
    let mut pieces = pieces;
    let (shares, _tools) = take_apart(&mut pieces, rooms);
    pieces.destroy_empty();
    drop(join(shares));
}

/// Returns a board at the first half of a code block's decoding, and its first seat. The streams have length
/// K + 4, and as many fillers as the shape. The board is allocated last, after all that its pieces need.
pub fn open_board(
    alloc: Global,
    streams: &SoftStreams,
    shape: &Shape,
) -> Result<(Board<WindowPiece>, Idle<WindowPiece>), NoMemory>
    requires fill { streams.now.fill ≡ shape.now.f }
    requires d0 { length streams.now.d0 ≡ shape.now.k + 4 }
    requires d1 { length streams.now.d1 ≡ shape.now.k + 4 }
    requires d2 { length streams.now.d2 ≡ shape.now.k + 4 }
    ensures streams { IfOk result (λ made. (board_job job_of_piece made.0).streams ≡ streams.now) }
    ensures shape { IfOk result (λ made. (board_job job_of_piece made.0).shape ≡ shape.now) }
    ensures job { IfOk result (λ made. IsJob (board_job job_of_piece made.0)) }
    ensures seat { IfOk result (λ made. IsIdleOf made.0 made.1) }
    ensures opening { IfOk result (λ made. idle_view made.1
        ≡ opening_view (board_job job_of_piece made.0)) }
{
    let (pieces, common) = first_pieces(alloc, streams, shape)?;
    let about = Snapshot::of(&pieces[0]);
    match Board::new(alloc, pieces, common) {
        Ok(made) => Ok(made),
        Err(refused) => {
            discard(&about, refused);
            Err(NoMemory)
        }
    }
}
