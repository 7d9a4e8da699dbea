//! Drawing a window.
ghost use Rattle.std.specs.Prelude.{◌≡◌, ◌≢◌, ℕ, ◌+◌, ◌<◌, ◌≤◌};

use crate::board::Board;
use crate::piece::Piece;
use crate::plays::{Draw, Look};
use crate::seats::{Claim, Idle, STOPPED, Working};
use crate::view::Slot;

impl<P: Piece> Board<P> {
    ghost use Rattle.phase_board.specs.Boards.{board_job};
    ghost use Rattle.phase_board.specs.Seats.{IsIdleOf, idle_view};
    ghost use Rattle.phase_board.specs.Claims.{ClaimIs, IsClaimOf, Looked, claim_view};
    ghost use Rattle.phase_board.specs.Steps.{DrawnOnce};

    /// Loads the claim word once and tries to draw the window that it gives, once.
    pub fn claim(&self, seat: Idle<P>) -> Claim<P>
        requires { IsIdleOf self.now seat }
        ensures board { IsClaimOf self.now result }
        ensures look { Looked (idle_view seat) (claim_view result) }
        ensures answer { ClaimIs (board_job P.job self.now) (idle_view seat) result }
        ensures once { DrawnOnce (P.windows (board_job P.job self.now)) (claim_view result) }
    {
        let Idle { mut seat, found: _ } = seat;
        let words = &self.table.shared;
        let word = words.load::<Look<P>>(&mut seat, 0);
        if word >= STOPPED {
            return Claim::Over(Idle { seat, found: word });
        }
        let half = (word / 256) as u32;
        let drawn = word % 256;
        if drawn == self.count as u64 {
            return Claim::NotYet(Idle { seat, found: word }, half);
        }
        let found = words.compare_exchange::<Draw<P>>(&mut seat, 0, word, word + 1);
        if found != word {
            return Claim::Lost(Idle { seat, found }, word, found);
        }
        match words.exchange(&mut seat, drawn as usize + 1, Slot::Empty) {
            Slot::Piece(piece) => Claim::Taken(Working {
                seat,
                half,
                window: drawn as u32,
                found: word + 1,
                piece,
            }),
            Slot::Empty => unreachable!(),
            Slot::Common(_common, _room) => unreachable!(),
        }
    }
}
