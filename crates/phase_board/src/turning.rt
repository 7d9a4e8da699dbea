//! The next half, or the end.
ghost use Rattle.std.specs.Prelude.{◌≡◌, ◌+◌, ◌*◌, ◌≤◌, [], true, false};
ghost use Rattle.phase_board.specs.ClaimWord.{word_of};
ghost use Rattle.phase_board.specs.Slots.{AllPieces};

use crate::board::Board;
use crate::piece::Piece;
use crate::plays::{Clear, Settle};
use crate::seats::{Idle, STOPPED, Turning};
use crate::view::Slot;

impl<P: Piece> Board<P> {
    ghost use Rattle.phase_board.specs.Boards.{board_job};
    ghost use Rattle.phase_board.specs.Seats.{IsIdleOf, IsTurningOf, idle_view, settled_view};

    /// Returns all pieces to the board, ready for the next half, which is at most 1,000,000.
    pub fn turn(&self, seat: Turning<P>) -> Idle<P>
        requires board { IsTurningOf self.now seat }
        requires pieces { let job = board_job P.job self.now in
            AllPieces (P.windows job) (P.ready job (seat.half + 1)) seat.pieces.items }
        requires common { P.common (board_job P.job self.now) (seat.half + 1) seat.common }
        requires limit { seat.half + 1 ≤ 1000000 }
        ensures board { IsIdleOf self.now result }
        ensures view { idle_view result ≡ settled_view seat (word_of false (seat.half + 1) 0) }
    {
        let Turning {
            mut seat,
            half,
            pieces,
            common,
        } = seat;
        let words = &self.table.shared;
        words.swap::<Clear<P>>(&mut seat, 1, 0);
        self.put_back(&mut seat, pieces, common);
        let next = (u64::from(half) + 1) * 256;
        words.swap::<Settle<P>>(&mut seat, 0, next);
        Idle { seat, found: next }
    }

    /// Ends the board at this half. The pieces were taken out before.
    pub fn stop(&self, seat: Turning<P>) -> Idle<P>
        requires board { IsTurningOf self.now seat }
        requires pieces { seat.pieces.items ≡ [] }
        requires common { P.ended (board_job P.job self.now) seat.half seat.common }
        ensures board { IsIdleOf self.now result }
        ensures view { let windows = P.windows (board_job P.job self.now) in
            idle_view result ≡ settled_view seat (word_of true seat.half windows) }
    {
        let Turning {
            mut seat,
            half,
            pieces,
            common,
        } = seat;
        let words = &self.table.shared;
        match words.exchange(&mut seat, 0, Slot::Common(common, pieces)) {
            Slot::Empty => {}
            Slot::Piece(_piece) => unreachable!(),
            Slot::Common(_common, _room) => unreachable!(),
        }
        let last = STOPPED + u64::from(half) * 256 + self.count as u64;
        words.swap::<Settle<P>>(&mut seat, 0, last);
        Idle { seat, found: last }
    }
}
