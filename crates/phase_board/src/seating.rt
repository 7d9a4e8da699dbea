//! Splitting and joining of seats.
ghost use Rattle.std.specs.Prelude.{◌≡◌};

use crate::board::Board;
use crate::piece::Piece;
use crate::plays::{Merge, Twin};
use crate::seats::Idle;

impl<P: Piece> Board<P> {
    ghost use Rattle.phase_board.specs.Seats.{IsIdleOf, idle_view};
    ghost use Rattle.phase_board.specs.Steps.{twin, merged};

    /// Returns the same seat, and a new one with empty lists and no looks that has seen the same words.
    pub fn split_seat(&self, seat: Idle<P>) -> (Idle<P>, Idle<P>)
        requires { IsIdleOf self.now seat }
        ensures board { IsIdleOf self.now result.0 × IsIdleOf self.now result.1 }
        ensures first { idle_view result.0 ≡ idle_view seat }
        ensures second { idle_view result.1 ≡ twin (idle_view seat) }
    {
        let Idle { mut seat, found } = seat;
        let other = self.table.shared.split_seat::<Twin>(&mut seat);
        (Idle { seat, found }, Idle { seat: other, found })
    }

    /// Returns one seat that knows what either knew. The looks and the loaded word are those of `into`.
    pub fn join_seat(&self, into: Idle<P>, other: Idle<P>) -> Idle<P>
        requires into { IsIdleOf self.now into }
        requires other { IsIdleOf self.now other }
        ensures board { IsIdleOf self.now result }
        ensures merged { idle_view result ≡ merged (idle_view into) (idle_view other) }
    {
        let Idle { mut seat, found } = into;
        let Idle {
            seat: other,
            found: also,
        } = other;
        self.table.shared.join_seat::<Merge>(&mut seat, other);
        let found = if found < also { also } else { found };
        Idle { seat, found }
    }
}
