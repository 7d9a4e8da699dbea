//! The items of a relay's queue, what its passes know, and the result of a step.
ghost use Rattle.tb_pipeline.specs.declared.known.Role.TheVariants.{Filled};
ghost use Rattle.tb_pipeline.specs.Relays.{Popped, hand_of, puts};

use crossbeam_queue::RuledArrayQueue;
use crossbeam_queue::protocol::{Outcome, Protocol, Split};
use std::alloc::Global;
use std::collections::LinkedList;

/// An item of a relay's queue.
#[derive(Clone, Copy)]
pub enum Item {
    /// The number of a job.
    Number(usize),
    /// There is no further job.
    EndMark,
}

/// The role of a pass.
#[derive(Clone, Copy)]
pub enum Role {
    /// It fills the queue. No other pass was made.
    Filling,
    /// It filled the queue. Nothing more is put.
    Filled,
    /// It is a hand, and takes.
    Taking,
}

/// What a pass knows: all that was put, what the pass is for, the places that it popped, in order, and
/// whether the last of them is that of an end mark. No value of it is made.
pub struct Known {
    pub all: LinkedList<Item>,
    pub role: Role,
    pub places: LinkedList<usize>,
    pub ended: bool,
}

/// The rule of a relay.
pub struct InOrder;

impl Protocol<Item, Known> for InOrder {
    ghost use Rattle.std.specs.Prelude.{[]};
    ghost use Rattle.tb_pipeline.specs.Relays.{IsRelayed, filler};

    ghost holds = { IsRelayed };

    ghost first = { filler [] };
}

/// An item is put after the others.
pub(crate) struct Puts;

impl Outcome<Item, Known> for Puts {
    ghost then = { puts };
}

/// The first item is popped.
pub(crate) struct Pops;

impl Outcome<Item, Known> for Pops {
    ghost then = { Popped };
}

/// The filler makes a hand.
pub(crate) struct Deals;

impl Split<Known> for Deals {
    ghost left = { λ v. record v { role = Filled } };

    ghost right = { hand_of };
}

/// The queue of a relay.
pub(crate) type Line = RuledArrayQueue<Item, Known, InOrder, Global>;
