//! Closing of a stopped board.
ghost use Rattle.std.specs.Prelude.{◌≡◌};
ghost use Rattle.phase_board.specs.ClaimWord.{half_of, IsStopped};

use crate::board::Board;
use crate::closed::Closed;
use crate::piece::Piece;
use crate::seats::{Idle, STOPPED};
use crate::view::Slot;

impl<P: Piece> Board<P> {
    ghost use Rattle.phase_board.specs.Boards.{board_job};
    ghost use Rattle.phase_board.specs.Seats.{IsIdleOf, idle_view};
    ghost use Rattle.phase_board.specs.Steps.{DrawnOnce};
    ghost use Rattle.phase_board.specs.Closings.{closed_job, AllDrawnAndDone};

    /// Returns the common value of a stopped board. Other seats were joined, or are dropped idle.
    pub fn close(self, seat: Idle<P>) -> (P::Common, Closed<P>)
        requires board { IsIdleOf self seat }
        requires over { IsStopped (idle_view seat).found }
        ensures common { P.ended (board_job P.job self) (half_of (idle_view seat).found) result.0 }
        ensures closed { (closed_job P.job result.1 ≡ board_job P.job self)
            × (result.1.half ≡ half_of (idle_view seat).found) }
        ensures once { DrawnOnce (P.windows (board_job P.job self)) (idle_view seat) }
        ensures count { let half = half_of (idle_view seat).found in
            AllDrawnAndDone (board_job P.job self) half seat result.0 }
    {
        let Board {
            table,
            count,
            about,
        } = self;
        let Idle { seat, found } = seat;
        let mut closed = table.close_with(seat);
        let (common, room) = match closed.take(0) {
            Slot::Common(common, room) => (common, room),
            Slot::Empty => unreachable!(),
            Slot::Piece(_piece) => unreachable!(),
        };
        room.destroy_empty();
        for i in 0..count {
            match closed.take(i + 1) {
                Slot::Empty => {}
                Slot::Piece(_piece) => unreachable!(),
                Slot::Common(_common, _room) => unreachable!(),
            }
        }
        closed.free();
        let half = (found % STOPPED / 256) as u32;
        (common, Closed { about, half })
    }
}
