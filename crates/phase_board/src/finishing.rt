//! Marking a window done.
ghost use Rattle.std.specs.Prelude.{◌≡◌};

use crate::board::Board;
use crate::piece::Piece;
use crate::plays::Complete;
use crate::seats::{Finish, Idle, Working};
use crate::view::Slot;

impl<P: Piece> Board<P> {
    ghost use Rattle.phase_board.specs.Boards.{board_job};
    ghost use Rattle.phase_board.specs.Seats.{IsWorkingOf};
    ghost use Rattle.phase_board.specs.Finishes.{IsFinishOf, FinishIs};

    /// Returns the piece to the board and marks its window done. The seat that marks the last window gets all
    /// pieces.
    pub fn finish(&self, seat: Working<P>) -> Finish<P>
        requires board { IsWorkingOf self.now seat }
        requires done { P.done (board_job P.job self.now) seat.half seat.window seat.piece }
        ensures board { IsFinishOf self.now result }
        ensures answer { FinishIs (board_job P.job self.now) seat result }
    {
        let Working {
            mut seat,
            half,
            window,
            found: stale,
            piece,
        } = seat;
        let words = &self.table.shared;
        match words.exchange(&mut seat, window as usize + 1, Slot::Piece(piece)) {
            Slot::Empty => {}
            Slot::Piece(_piece) => unreachable!(),
            Slot::Common(_common, _room) => unreachable!(),
        }
        let bit = 1u64 << window;
        let old = words.fetch_or::<Complete<P>>(&mut seat, 1, bit);
        if old | bit != self.all() {
            return Finish::Given(Idle { seat, found: stale });
        }
        Finish::Last(self.take_out(seat, half))
    }
}
