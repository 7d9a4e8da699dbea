//! The ghost knowledge of a seat, and the contents of a slot.
use std::collections::LinkedList;

/// The activity of a seat.
pub enum Activity {
    Idle,
    Working(u64),
    Turning,
    Reset,
}

/// The knowledge of a seat. No value of it is made. The lists have numbers of windows, counted through
/// all halves.
pub struct View<J> {
    pub job: Option<J>,
    pub activity: Activity,
    pub drawn: LinkedList<u64>,
    pub done: LinkedList<u64>,
    // The claim word that the last look gave.
    pub loaded: u64,
    // The claim word as the last look, claim, turn or stop left it.
    pub found: u64,
    pub looks: u64,
    // The mask that the last finish found.
    pub mask: u64,
}

/// A place for one piece, or for the common value beside the room for all pieces.
pub enum Slot<P, C> {
    Empty,
    Piece(P),
    Common(C, Vec<P>),
}
