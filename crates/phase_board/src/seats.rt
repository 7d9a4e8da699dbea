//! The states of a seat.
ghost use Rattle.std.specs.Prelude.{◌≡◌, ◌+◌, ◌-◌, ◌<◌, [], ◌∷◌, IsTrue, ◌↔◌};
ghost use Rattle.phase_board.specs.declared.view.Activity.TheVariants.{Idle as AtRest, Working as AtWork};
ghost use Rattle.phase_board.specs.declared.view.Activity.TheVariants.{Turning as Turns};
ghost use Rattle.phase_board.specs.declared.view.Slot.TheVariants.{Empty};
ghost use Rattle.phase_board.specs.ClaimWord.{half_of, drawn_of, IsStopped};
ghost use Rattle.phase_board.specs.Slots.{emptied};

use crate::piece::Piece;
use crate::view::{Slot, View};
use atomic_table::Seat;

pub type Place<P> = Seat<Slot<P, <P as Piece>::Common>, View<<P as Piece>::Job>>;

pub(crate) const STOPPED: u64 = 1 << 63;

/// A seat that may claim. It may be dropped.
#[derive(Drop)]
pub struct Idle<P: Piece> {
    pub(crate) seat: Place<P>,
    pub(crate) found: u64,
    ghost rests: { (seat.me.1 ≡ []) × (seat.me.0.activity ≡ AtRest) },
    ghost shows: { found ≡ seat.me.0.found },
}

/// A seat that has the piece of one window. Only `finish` consumes it.
pub struct Working<P: Piece> {
    pub(crate) seat: Place<P>,
    pub(crate) half: u32,
    pub(crate) window: u32,
    pub(crate) found: u64,
    /// The piece, ready at first. `finish` requires it done.
    pub piece: P,
    ghost works: { (seat.me.1 ≡ (window + 1, Empty) ∷ []) × (seat.me.0.activity ≡ AtWork window)
        × (window < 64) },
    ghost shows: { (half ≡ half_of seat.me.0.loaded) × (window ≡ drawn_of seat.me.0.loaded)
        × (found ≡ seat.me.0.found) },
}

/// The seat that did the last window of a half. Only `turn` and `stop` consume it.
pub struct Turning<P: Piece> {
    pub(crate) seat: Place<P>,
    pub(crate) half: u32,
    /// All pieces of the half, in order of window.
    pub pieces: Vec<P>,
    /// The common value of the half.
    pub common: P::Common,
    ghost turns: { (seat.me.1 ≡ emptied (seat.table_id.slots - 1)) × (seat.me.0.activity ≡ Turns) },
    ghost shows: { half ≡ half_of seat.me.0.loaded },
}

/// The result of a claim.
pub enum Claim<P: Piece> {
    /// A window was drawn.
    Taken(Working<P>),
    /// All windows of this half were drawn, and the board isn't stopped.
    NotYet(Idle<P>, u32),
    /// The exchange found another word than the one loaded: that one, and this.
    Lost(Idle<P>, u64, u64),
    /// The board is stopped.
    Over(Idle<P>),
}

/// The result of a finish.
pub enum Finish<P: Piece> {
    /// Another window wasn't in the mask yet.
    Given(Idle<P>),
    /// All windows of the half are done.
    Last(Turning<P>),
}

impl<P: Piece> Idle<P> {
    ghost use Rattle.phase_board.specs.Seats.{idle_view};

    /// Returns whether the board is stopped, by the word that the seat found.
    pub fn saw_over(&self) -> bool
        ensures { IsTrue result ↔ IsStopped (idle_view self.now).found }
    {
        self.found >= STOPPED
    }
}

impl<P: Piece> Working<P> {
    /// Returns the half of its window.
    pub fn half(&self) -> u32
        ensures { result ≡ self.now.half }
    {
        self.half
    }

    /// Returns its window, from 0.
    pub fn window(&self) -> u32
        ensures { result ≡ self.now.window }
    {
        self.window
    }
}

impl<P: Piece> Turning<P> {
    /// Returns the half whose windows are done.
    pub fn half(&self) -> u32
        ensures { result ≡ self.now.half }
    {
        self.half
    }
}
