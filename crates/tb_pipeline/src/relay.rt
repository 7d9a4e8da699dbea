//! A relay hands out the numbers of jobs.
ghost use Rattle.std.specs.Prelude.{◌≡◌, ◌+◌, ◌≤◌, false, length, All, IfOk};
ghost use Rattle.tb_pipeline.specs.Hands.{IsHandOf, IsNewHandOf, IsNextOf, hand_view};
ghost use Rattle.tb_pipeline.specs.Hands.{relay_count, relay_hands, relay_items, relay_room};
ghost use Rattle.tb_pipeline.specs.Relays.{all_items};

use crate::filling::{deal, fill};
use crate::hand::{Hand, Next, Relay};
use crate::known::{Item, Line, Pops};
use lte_bits::NoMemory;
use std::alloc::Global;
use std::snapshot::Snapshot;
use std::sync::Wait;
use std::thread;

impl Relay {
    /// Returns a relay of the numbers below `count`, 1 to 64, and its hands, 1 to 8. Only this call
    /// allocates.
    pub fn new<R: Wait>(
        rt: &R,
        alloc: Global,
        count: usize,
        hands: usize,
    ) -> Result<(Relay, Vec<Hand>), NoMemory>
        requires count { (1 ≤ count) × (count ≤ 64) }
        requires hands { (1 ≤ hands) × (hands ≤ 8) }
        ensures count { IfOk result (λ r. (relay_count r.0 ≡ count) × (relay_hands r.0 ≡ hands)) }
        ensures room { IfOk result (λ r. relay_room r.0 ≡ count + hands) }
        ensures filled { IfOk result (λ r. relay_items r.0 ≡ all_items count hands) }
        ensures hands { IfOk result (λ r. length r.1.items ≡ hands) }
        ensures new { IfOk result (λ r. All (IsNewHandOf r.0) r.1.items) }
    {
        let mut made = Vec::with_capacity(alloc, hands)?;
        let (queue, filler) = Line::ruled(alloc, count + hands)?;
        let mut filler = fill(rt, &queue, filler, count, hands);
        deal(&queue, &mut filler, hands, &mut made);
        let relay = Relay {
            queue,
            count,
            hands,
            filler: Snapshot::of(&filler),
        };
        Ok((relay, made))
    }

    /// Pops the first item of the queue, retrying for as long as other hands interfere.
    pub fn take<R: Wait>(&self, rt: &R, hand: Hand) -> Next
        requires hand { IsHandOf self.now hand }
        requires going_on { (hand_view hand).ended ≡ false }
        ensures { IsNextOf self.now hand result }
    {
        let Hand { mut pass } = hand;
        for _ in rt.forever() {
            match self.queue.try_pop_as::<Pops>(&mut pass) {
                Some(Item::Number(number)) => return Next::Job(Hand { pass }, number),
                Some(Item::EndMark) => return Next::Empty(Hand { pass }),
                None => thread::yield_now(),
            }
        }
        unreachable!()
    }
}
