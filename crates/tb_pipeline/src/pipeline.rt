//! Jobs run by several threads.
ghost use Rattle.std.specs.Prelude.{◌≤◌, length, IfOk};
ghost use Rattle.std.specs.List.{AllZip};

use crate::finishing::finish;
use crate::hand::Relay;
use crate::job::{Job, Start};
use crate::results::{collect, empty_slots, open_results};
use crate::sender::another_sender;
use crate::working::work_all;
use lte_bits::{List, NoMemory};
use std::alloc::Global;
use std::sync::Wait;
use std::thread::Threads;

/// Runs 1 to 64 jobs with 1 to 8 workers: place i of the list is an answer of job i. All memory is allocated
/// before a worker starts. A job without an answer is run by the caller at the end. If no thread can be
/// created, the workers run one after the other.
pub fn through<J: Job + Sync, G: Start + Sync, R: Threads + Wait + Sync>(
    rt: &R,
    alloc: Global,
    jobs: &[J],
    pipes: usize,
    start: &G,
) -> Result<List<J::Done>, NoMemory>
where
    J::Done: Drop + Send,
    requires jobs { (1 ≤ length jobs.now) × (length jobs.now ≤ 64) }
    requires pipes { (1 ≤ pipes) × (pipes ≤ 8) }
    ensures { IfOk result (λ list. AllZip J.answers jobs.now list) }
{
    let mut done = Vec::with_capacity(alloc, jobs.len())?;
    let mut slots = empty_slots(alloc, jobs)?;
    let (answers, sender) = open_results(rt, alloc, jobs)?;
    let (relay, hands) = Relay::new(rt, alloc, jobs.len(), pipes)?;
    let (sender, others) = another_sender(&answers, sender);
    let _ended = work_all(rt, &relay, hands, jobs, start, &answers, others);
    collect(jobs, &answers, sender, slots.as_mut_slice());
    finish(jobs, start, slots.as_mut_slice(), &mut done);
    Ok(List::from_vec(done))
}
