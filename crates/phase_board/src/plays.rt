//! The rule of the board, and what each step tells. These types are for the proofs alone.
ghost use Rattle.phase_board.specs.Lawful.{Lawful, opening_view, spent_view};
ghost use Rattle.phase_board.specs.Steps.{looked, drew, finished, cleared, settled, twin, merged};

use crate::piece::Piece;
use crate::view::{Slot, View};
use atomic_table::{Join, Play, Split, TableRule};
use std::marker::PhantomData;
use std::snapshot::Snapshot;

pub struct Law<P> {
    piece: PhantomData<P>,
}

impl<P: Piece> TableRule<Slot<P, P::Common>, View<P::Job>, Snapshot<P>> for Law<P> {
    ghost holds = { λ k. Lawful P.windows P.ready P.done P.common P.ended (P.job k.value) };

    ghost first = { λ k. opening_view (P.job k.value) };
}

pub struct Look<P> {
    piece: PhantomData<P>,
}

impl<P: Piece> Play<Slot<P, P::Common>, View<P::Job>> for Look<P> {
    ghost then = { looked P.windows };
}

pub struct Draw<P> {
    piece: PhantomData<P>,
}

impl<P: Piece> Play<Slot<P, P::Common>, View<P::Job>> for Draw<P> {
    ghost then = { drew P.windows P.ready };
}

pub struct Complete<P> {
    piece: PhantomData<P>,
}

impl<P: Piece> Play<Slot<P, P::Common>, View<P::Job>> for Complete<P> {
    ghost then = { finished P.windows P.done P.common };
}

pub struct Clear<P> {
    piece: PhantomData<P>,
}

impl<P: Piece> Play<Slot<P, P::Common>, View<P::Job>> for Clear<P> {
    ghost then = { cleared P.windows };
}

pub struct Settle<P> {
    piece: PhantomData<P>,
}

impl<P: Piece> Play<Slot<P, P::Common>, View<P::Job>> for Settle<P> {
    ghost then = { settled P.windows };
}

pub struct Twin;

impl<J> Split<View<J>> for Twin {
    ghost left = { λ v. v };

    ghost right = { twin };
}

pub struct Merge;

impl<J> Join<View<J>> for Merge {
    ghost both = { merged };

    ghost spent = { spent_view };
}
