//! The slots that a turning seat has: the pieces come out of them, and go back.
ghost use Rattle.std.specs.Prelude.{◌≡◌, ℕ, ◌+◌, ◌≤◌, ◌++◌, [], ◌∷◌};
ghost use Rattle.atomic_table.specs.Table.{rest};
ghost use Rattle.phase_board.specs.declared.view.Activity.TheVariants.{Turning as Turns};
ghost use Rattle.phase_board.specs.declared.view.Slot.TheVariants.{Empty};
ghost use Rattle.phase_board.specs.ClaimWord.{half_of};
ghost use Rattle.phase_board.specs.Slots.{AllOut, AllPieces};

use crate::board::Board;
use crate::piece::Piece;
use crate::seats::{Place, Turning};
use crate::view::Slot;

impl<P: Piece> Board<P> {
    ghost use Rattle.phase_board.specs.Boards.{board_id, board_job};

    // Takes the common value and all pieces out of the slots that the seat has.
    pub(crate) fn take_out(&self, mut seat: Place<P>, half: u32) -> Turning<P>
        requires board { seat.table_id ≡ board_id self.now }
        requires out { let job = board_job P.job self.now in
            AllOut (P.windows job) (P.common job half) (P.done job half) seat.me.1 }
        requires size { P.windows (board_job P.job self.now) ≡ self.now.count }
        requires turns { (seat.me.0.activity ≡ Turns) × (half ≡ half_of seat.me.0.loaded) }
        ensures pieces { let job = board_job P.job self.now in
            AllPieces (P.windows job) (P.done job half) result.pieces.items }
        ensures common { P.common (board_job P.job self.now) half result.common }
        ensures seat { (result.half ≡ half) × (result.seat.table_id ≡ seat.table_id)
            × (result.seat.id ≡ seat.id) × (result.seat.me.0 ≡ seat.me.0) }
    {
        let (common, mut pieces) = match self.take_front(&mut seat, 0) {
            Slot::Common(common, room) => (common, room),
            Slot::Empty => unreachable!(),
            Slot::Piece(_piece) => unreachable!(),
        };
        for i in 0..self.count {
            match self.take_front(&mut seat, i + 1) {
                Slot::Piece(piece) => {
                    if let Err(_refused) = pieces.push(piece) {
                        unreachable!()
                    }
                }
                Slot::Empty => unreachable!(),
                Slot::Common(_common, _room) => unreachable!(),
            }
        }
        Turning {
            seat,
            half,
            pieces,
            common,
        }
    }

    // Takes the value out of the slot at the seat's front, and moves the emptied slot to the back.
    fn take_front(&self, seat: &mut Place<P>, slot: usize) -> Slot<P, P::Common>
        requires board { seat.old.table_id ≡ board_id self.now }
        requires front { (x : _) × (seat.old.me.1 ≡ (slot, x) ∷ rest seat.old.me.1) }
        ensures seat { (seat.new.table_id ≡ seat.old.table_id) × (seat.new.id ≡ seat.old.id)
            × (seat.new.me.0 ≡ seat.old.me.0) }
        ensures slots { (seat.old.me.1 ≡ (slot, result) ∷ rest seat.old.me.1)
            × (seat.new.me.1 ≡ rest seat.old.me.1 ++ (slot, Empty) ∷ []) }
    {
        let value = self.table.shared.exchange(seat, slot, Slot::Empty);
        seat.turn();
        value
    }
}
