//! Workers that share a relay.
ghost use Rattle.std.specs.Prelude.{◌≡◌, ◌<◌, Some, false, length, vec_capacity, All};
ghost use Rattle.std.specs.Thread.{IsSend, IsSync};
ghost use Rattle.crossbeam_queue.specs.Passes.{IsPassOf, view};
ghost use Rattle.tb_pipeline.specs.Hands.{IsEndedHandOf, IsHandOf, IsNewHandOf, hand_view, relay_count};

use crate::completion::{Answers, Completion, ResultSender, Sends};
use crate::hand::{Hand, Next, Relay};
use crate::job::{Job, Start};
use crate::sender::another_sender;
use std::sync::Wait;
use std::thread::{Threads, join};

/// Runs jobs until the hand has taken an end mark, and returns the hand. An answer for which there is no room
/// is dropped.
fn work<J: Job, G: Start, R: Wait>(
    rt: &R,
    relay: &Relay,
    hand: Hand,
    jobs: &[J],
    start: &G,
    answers: &Answers<J>,
    sender: ResultSender<J>,
) -> Hand
where
    J::Done: Drop,
    requires count { relay_count relay.now ≡ length jobs.now }
    requires hand { IsHandOf relay.now hand × ((hand_view hand).ended ≡ false) }
    requires answers { IsPassOf answers.now.queue sender.pass × (view sender.pass ≡ Some jobs.now) }
    ensures { IsEndedHandOf relay.now result }
{
    let mut hand = hand;
    let ResultSender { mut pass } = sender;
    for _ in rt.forever() {
        match relay.take(rt, hand) {
            Next::Empty(ended) => return ended,
            Next::Job(next, number) => {
                hand = next;
                start.enter(number);
                let done = jobs[number].run();
                let _ = answers
                    .queue
                    .push_as::<Sends, R>(rt, &mut pass, Completion::Done(number, done));
            }
        }
    }
    unreachable!()
}

/// Runs a worker for each hand, and returns the hands, each of which has taken an end mark.
pub(crate) fn work_all<J: Job + Sync, G: Start + Sync, R: Threads + Wait + Sync>(
    rt: &R,
    relay: &Relay,
    hands: Vec<Hand>,
    jobs: &[J],
    start: &G,
    answers: &Answers<J>,
    sender: ResultSender<J>,
) -> Vec<Hand>
where
    J::Done: Drop + Send,
    requires crossing { IsSync R.row × IsSync G.row × IsSync J.row × IsSend J.Done.row }
    requires count { relay_count relay.now ≡ length jobs.now }
    requires hands { All (IsNewHandOf relay.now) hands.items }
    requires answers { IsPassOf answers.now.queue sender.pass × (view sender.pass ≡ Some jobs.now) }
    ensures ended { All (IsEndedHandOf relay.now) result.items }
    ensures count { length result.items ≡ length hands.items }
    ensures room { vec_capacity result ≡ vec_capacity hands }
{
    let mut hands = hands;
    let Some(hand) = hands.pop() else {
        return hands;
    };
    if hands.is_empty() {
        hands.push_reserved(work(rt, relay, hand, jobs, start, answers, sender));
        return hands;
    }
    let (sender, other) = another_sender(answers, sender);
    let (ended, mut others) = join(
        rt,
        move || -> Hand
            requires { (relay_count relay.now ≡ length jobs.now) × IsNewHandOf relay.now hand
                × IsPassOf answers.now.queue sender.pass × (view sender.pass ≡ Some jobs.now) }
            ensures { IsEndedHandOf relay.entry.now result }
        { work(rt, relay, hand, jobs, start, answers, sender) },
        move || -> Vec<Hand>
            requires { IsSync R.row × IsSync G.row × IsSync J.row × IsSend J.Done.row
                × (relay_count relay.now ≡ length jobs.now) × All (IsNewHandOf relay.now) hands.items
                × IsPassOf answers.now.queue other.pass
                × (view other.pass ≡ Some jobs.now) }
            ensures ended { All (IsEndedHandOf relay.entry.now) result.items }
            ensures count { length result.items ≡ length hands.items }
            ensures room { vec_capacity result ≡ vec_capacity hands }
        { work_all(rt, relay, hands, jobs, start, answers, other) },
    );
    others.push_reserved(ended);
    others
}
