//! Creation of a board.
ghost use Rattle.std.specs.Prelude.{◌≡◌, ◌+◌, ◌<◌, ◌≤◌, ◌∷◌, length, map, List};
ghost use Rattle.std.specs.Prelude.{Some, Vec, IfOk, IfErr, IsSomeAnd};
ghost use Rattle.std.specs.declared.alloc.Global.{Global};
ghost use Rattle.phase_board.specs.declared.view.Slot.TheVariants.{Piece as Holds, Common as Keeps};
ghost use Rattle.phase_board.specs.Lawful.{opening_view};
ghost use Rattle.phase_board.specs.Slots.{HasRoom};
ghost use Rattle.phase_board.specs.Openings.{job_of, Opens};

use crate::board::Board;
use crate::piece::Piece;
use crate::seats::Idle;
use crate::view::Slot;
use atomic_table::{Refused, Table};
use std::alloc::Global;
use std::snapshot::Snapshot;

/// The error of running out of memory, with the pieces and the common value.
pub struct NewRefused<P: Piece> {
    pub pieces: Vec<P>,
    pub common: P::Common,
}

// Returns the slots of a new board: the common value with the emptied vector, and then the pieces.
fn lay<P: Piece>(
    alloc: Global,
    mut pieces: Vec<P>,
    common: P::Common,
) -> Result<Vec<Slot<P, P::Common>>, NewRefused<P>>
    requires { length pieces.items ≤ 64 }
    ensures laid { IfOk result (λ slots. (room : Vec P Global)
        × (slots.items ≡ Keeps common room ∷ map Holds pieces.items) × HasRoom (length pieces.items) room) }
    ensures refused { IfErr result (λ r. (r.pieces.items ≡ pieces.items) × (r.common ≡ common)) }
{
    let Ok(mut slots) = Vec::with_capacity(alloc, pieces.len() + 1) else {
        return Err(NewRefused { pieces, common });
    };
    for i in 0..pieces.len() {
        match pieces.pop() {
            Some(piece) => slots.push_reserved(Slot::Piece(piece)),
            None => unreachable!(),
        }
    }
    slots.push_reserved(Slot::Common(common, pieces));
    slots.reverse();
    Ok(slots)
}

// Returns the pieces and the common value from the slots of a board that wasn't made.
fn unlay<P: Piece>(mut slots: Vec<Slot<P, P::Common>>) -> NewRefused<P>
    requires { (x : P.Common) × (room : Vec P Global) × (ps : List P)
        × (slots.items ≡ Keeps x room ∷ map Holds ps) × HasRoom (length ps) room }
    ensures { (room : Vec P Global)
        × (slots.items ≡ Keeps result.common room ∷ map Holds result.pieces.items) }
{
    slots.reverse();
    let (common, mut pieces) = match slots.pop() {
        Some(Slot::Common(common, room)) => (common, room),
        Some(Slot::Empty) => unreachable!(),
        Some(Slot::Piece(_piece)) => unreachable!(),
        None => unreachable!(),
    };
    for i in 0..slots.len() {
        match slots.pop() {
            Some(Slot::Piece(piece)) => pieces.push_reserved(piece),
            Some(Slot::Empty) => unreachable!(),
            Some(Slot::Common(_common, _room)) => unreachable!(),
            None => unreachable!(),
        }
    }
    slots.destroy_empty();
    NewRefused { pieces, common }
}

impl<P: Piece> Board<P> {
    ghost use Rattle.phase_board.specs.Boards.{board_job};
    ghost use Rattle.phase_board.specs.Seats.{IsIdleOf, idle_view};

    /// Returns a board at half 0 and its first seat, from 1 to 64 pieces that are ready for it.
    pub fn new(
        alloc: Global,
        pieces: Vec<P>,
        common: P::Common,
    ) -> Result<(Board<P>, Idle<P>), NewRefused<P>>
        requires { IsSomeAnd (job_of P.job pieces.items)
            (λ job. Opens P.job P.windows P.ready P.common job pieces.items common) }
        ensures made { IfOk result (λ made. (job_of P.job pieces.items ≡ Some (board_job P.job made.0))
            × IsIdleOf made.0 made.1 × (idle_view made.1 ≡ opening_view (board_job P.job made.0))) }
        ensures refused { IfErr result (λ r. (r.pieces.items ≡ pieces.items) × (r.common ≡ common)) }
    {
        let about = Snapshot::of(&pieces[0]);
        let count = pieces.len();
        let slots = lay(alloc, pieces, common)?;
        match Table::new(alloc, &[0, 0], slots, &about) {
            Ok((table, seat)) => Ok((
                Board {
                    table,
                    count,
                    about,
                },
                Idle { seat, found: 0 },
            )),
            Err(Refused { slots }) => Err(unlay(slots)),
        }
    }
}
