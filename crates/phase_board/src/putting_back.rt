//! Return of the pieces to the slots that a turning seat has.
ghost use Rattle.std.specs.Prelude.{◌≡◌, ◌∷◌, ◌++◌, [], map, length, Vec};
ghost use Rattle.atomic_table.specs.Table.{rest};
ghost use Rattle.std.specs.declared.alloc.Global.{Global};
ghost use Rattle.phase_board.specs.declared.view.Slot.TheVariants.{Empty, Piece as Holds, Common as Keeps};
ghost use Rattle.phase_board.specs.Slots.{emptied, numbered, HasRoom};

use crate::board::Board;
use crate::piece::Piece;
use crate::seats::Place;
use crate::view::Slot;

impl<P: Piece> Board<P> {
    ghost use Rattle.phase_board.specs.Boards.{board_id};

    // Puts the common value and all pieces into the slots that the seat has empty.
    pub(crate) fn put_back(&self, seat: &mut Place<P>, mut pieces: Vec<P>, common: P::Common)
        requires board { seat.old.table_id ≡ board_id self.now }
        requires size { length pieces.items ≡ self.now.count }
        requires empty { seat.old.me.1 ≡ emptied self.now.count }
        ensures seat { (seat.new.table_id ≡ seat.old.table_id) × (seat.new.id ≡ seat.old.id)
            × (seat.new.me.0 ≡ seat.old.me.0) }
        ensures slots { (room : Vec P Global)
            × (seat.new.me.1 ≡ numbered 0 (Keeps common room ∷ map Holds pieces.items))
            × HasRoom self.now.count room }
    {
        seat.turn();
        pieces.reverse();
        for i in 0..self.count {
            match pieces.pop() {
                Some(piece) => self.put_front(seat, i + 1, piece),
                None => unreachable!(),
            }
        }
        match self
            .table
            .shared
            .exchange(seat, 0, Slot::Common(common, pieces))
        {
            Slot::Empty => {}
            Slot::Piece(_piece) => unreachable!(),
            Slot::Common(_common, _room) => unreachable!(),
        }
    }

    // Puts a piece into the empty slot at the seat's front, and moves the slot to the back.
    fn put_front(&self, seat: &mut Place<P>, slot: usize, piece: P)
        requires board { seat.old.table_id ≡ board_id self.now }
        requires front { seat.old.me.1 ≡ (slot, Empty) ∷ rest seat.old.me.1 }
        ensures seat { (seat.new.table_id ≡ seat.old.table_id) × (seat.new.id ≡ seat.old.id)
            × (seat.new.me.0 ≡ seat.old.me.0) }
        ensures slots { seat.new.me.1 ≡ rest seat.old.me.1 ++ (slot, Holds piece) ∷ [] }
    {
        match self.table.shared.exchange(seat, slot, Slot::Piece(piece)) {
            Slot::Empty => {}
            Slot::Piece(_piece) => unreachable!(),
            Slot::Common(_common, _room) => unreachable!(),
        }
        seat.turn();
    }
}
