//! Collection of the answers.
ghost use Rattle.std.specs.Prelude.{◌≡◌, ◌<◌, ◌^◌, Some, IfOk, length};
ghost use Rattle.crossbeam_queue.specs.Passes.{IsPassOf, view};
ghost use Rattle.tb_pipeline.specs.Completions.{AreSlotsOf, IsCompletionFor, values_of};

use crate::completion::{Answers, Completion, Opens, Receives, ResultSender};
use crate::job::Job;
use crate::slots::swap_at;
use crossbeam_queue::RuledArrayQueue;
use lte_bits::NoMemory;
use std::alloc::Global;
use std::snapshot::Snapshot;
use std::sync::Wait;

/// Returns the jobs as contracts see them.
fn seen<J>(alloc: Global, jobs: &[J]) -> Result<Vec<Snapshot<J>>, NoMemory>
    ensures { IfOk result (λ all. values_of all.items ≡ jobs.now) }
{
    let mut all = Vec::with_capacity(alloc, jobs.len())?;
    for number in 0..jobs.len() {
        all.push_reserved(Snapshot::of(&jobs[number]));
    }
    Ok(all)
}

/// Returns a queue with room for an answer of each job, and a pass of it.
pub(crate) fn open_results<J: Job, R: Wait>(
    rt: &R,
    alloc: Global,
    jobs: &[J],
) -> Result<(Answers<J>, ResultSender<J>), NoMemory>
where
    J::Done: Drop,
    requires { length jobs.now < 2 ^ 32 }
    ensures { IfOk result (λ r. IsPassOf r.0.queue r.1.pass × (view r.1.pass ≡ Some jobs.now)) }
{
    let all = seen(alloc, jobs)?;
    let (queue, mut pass) = RuledArrayQueue::ruled(alloc, jobs.len() + 1)?;
    for _ in rt.forever() {
        if queue
            .try_push_as::<Opens>(&mut pass, Completion::Jobs(Snapshot::of(&all)))
            .is_ok()
        {
            return Ok((Answers { queue }, ResultSender { pass }));
        }
    }
    unreachable!()
}

/// Returns an empty slot for the answer of each job.
pub(crate) fn empty_slots<J: Job>(
    alloc: Global,
    jobs: &[J],
) -> Result<Vec<Option<J::Done>>, NoMemory>
where
    J::Done: Drop,
    ensures { IfOk result (λ slots. AreSlotsOf J.answers jobs.now slots.items) }
{
    let mut slots = Vec::with_capacity(alloc, jobs.len())?;
    for _ in 0..jobs.len() {
        slots.push_reserved(None);
    }
    Ok(slots)
}

/// Stores a received answer in the slot of its job.
fn place<J: Job>(_jobs: &[J], completion: Completion<J, J::Done>, slots: &mut [Option<J::Done>])
where
    J::Done: Drop,
    requires completion { IsCompletionFor J.answers _jobs.now completion }
    requires slots { AreSlotsOf J.answers _jobs.now slots.old }
    ensures { AreSlotsOf J.answers _jobs.now slots.new }
{
    match completion {
        Completion::Jobs(_) => {}
        Completion::Done(number, done) => {
            let _ = swap_at(slots, number, Some(done));
        }
    }
}

/// Stores the received answers in the slots of their jobs.
pub(crate) fn collect<J: Job>(
    jobs: &[J],
    answers: &Answers<J>,
    sender: ResultSender<J>,
    slots: &mut [Option<J::Done>],
)
where
    J::Done: Drop,
    requires sender { IsPassOf answers.now.queue sender.pass × (view sender.pass ≡ Some jobs.now) }
    requires slots { AreSlotsOf J.answers jobs.now slots.old }
    ensures { AreSlotsOf J.answers jobs.now slots.new }
{
    let ResultSender { mut pass } = sender;
    for _ in 0..answers.queue.capacity() {
        match answers.queue.try_pop_as::<Receives<J>>(&mut pass) {
            Some(completion) => place(jobs, completion, slots),
            None => return,
        }
    }
}
