//! Filling of a relay, and creation of its hands.
ghost use Rattle.std.specs.Prelude.{◌≡◌, ◌≤◌, ◌∷◌, ◌++◌, [], length, vec_capacity, All};
ghost use Rattle.crossbeam_queue.specs.Passes.{IsPassOf, view};
ghost use Rattle.tb_pipeline.specs.declared.known.Role.TheVariants.{Filling};
ghost use Rattle.tb_pipeline.specs.Hands.{hand_view};
ghost use Rattle.tb_pipeline.specs.Relays.{AreInOrder, IsFiller, all_items, hand_of};

use crate::hand::Hand;
use crate::known::{Deals, Item, Known, Line, Puts};
use crossbeam_queue::Pass;
use std::sync::Wait;

/// Appends an item.
fn put<R: Wait>(
    rt: &R,
    queue: &Line,
    mut filler: Pass<Item, Known>,
    item: Item,
) -> Pass<Item, Known>
    requires queue { IsPassOf queue.now filler × ((view filler).role ≡ Filling) }
    requires order { AreInOrder ((view filler).all ++ item ∷ []) }
    ensures queue { IsPassOf queue.now result × ((view result).role ≡ Filling) }
    ensures all { (view result).all ≡ (view filler).all ++ item ∷ [] }
{
    for _ in rt.forever() {
        if queue.try_push_as::<Puts>(&mut filler, item).is_ok() {
            return filler;
        }
    }
    unreachable!()
}

/// Fills the queue with the numbers below `count`, and an end mark for each hand.
pub(crate) fn fill<R: Wait>(
    rt: &R,
    queue: &Line,
    filler: Pass<Item, Known>,
    count: usize,
    hands: usize,
) -> Pass<Item, Known>
    requires queue { IsPassOf queue.now filler × ((view filler).role ≡ Filling) }
    requires none { (view filler).all ≡ [] }
    ensures queue { IsPassOf queue.now result × ((view result).role ≡ Filling) }
    ensures all { (view result).all ≡ all_items count hands }
{
    let mut filler = filler;
    for number in 0..count {
        filler = put(rt, queue, filler, Item::Number(number));
    }
    for _ in 0..hands {
        filler = put(rt, queue, filler, Item::EndMark);
    }
    filler
}

/// Makes hands, which know what the filler put.
pub(crate) fn deal(queue: &Line, filler: &mut Pass<Item, Known>, hands: usize, made: &mut Vec<Hand>)
    requires queue { IsPassOf queue.now filler.old × IsFiller (view filler.old) }
    requires none { made.old.items ≡ [] }
    requires room { hands ≤ vec_capacity made.old }
    ensures queue { IsPassOf queue.now filler.new }
    ensures all { (view filler.new).all ≡ (view filler.old).all }
    ensures count { length made.new.items ≡ hands }
    ensures made { All (λ h. IsPassOf queue.now h.pass × (hand_view h ≡ hand_of (view filler.old)))
        made.new.items }
{
    for _ in 0..hands {
        made.push_reserved(Hand {
            pass: queue.another::<Deals>(filler),
        });
    }
}
