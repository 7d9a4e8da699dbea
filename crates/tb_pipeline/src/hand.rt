//! A relay, and the hands that take from it.
ghost use Rattle.std.specs.Prelude.{◌≡◌};
ghost use Rattle.crossbeam_queue.specs.Passes.{IsPassOf, view};
ghost use Rattle.tb_pipeline.specs.Relays.{all_items};

use crate::known::{Item, Known, Line};
use crossbeam_queue::Pass;
use std::snapshot::Snapshot;

/// The numbers of jobs, in a queue that threads share, and after them an end mark for each hand.
#[derive(Drop)]
pub struct Relay {
    pub(crate) queue: Line,
    pub(crate) count: usize,
    pub(crate) hands: usize,
    pub(crate) filler: Snapshot<Pass<Item, Known>>,
    ghost filled: { IsPassOf queue filler.value × ((view filler.value).all ≡ all_items count hands) },
}

/// Takes numbers from a relay until it takes an end mark.
#[derive(Drop)]
pub struct Hand {
    pub(crate) pass: Pass<Item, Known>,
}

/// An item that a hand takes from a relay.
#[derive(Drop)]
pub enum Next {
    /// The number of a job.
    Job(Hand, usize),
    /// There is no further job.
    Empty(Hand),
}
