//! Jobs without an answer.
ghost use Rattle.std.specs.Prelude.{◌≡◌, ◌≤◌, [], length, vec_capacity, IfSome};
ghost use Rattle.std.specs.List.{AllZip};
ghost use Rattle.tb_pipeline.specs.Completions.{AreSlotsOf};

use crate::job::{Job, Start};
use crate::slots::swap_at;

/// Returns the answer in the slot of a job, or runs the job if there is none.
fn answer_in<J: Job, G: Start>(job: &J, number: usize, slot: Option<J::Done>, start: &G) -> J::Done
    requires { IfSome slot (λ done. J.answers job.now done) }
    ensures { J.answers job.now result }
{
    match slot {
        Some(done) => done,
        None => {
            start.enter(number);
            job.run()
        }
    }
}

/// Appends an answer of each job, in the order of the jobs.
pub(crate) fn finish<J: Job, G: Start>(
    jobs: &[J],
    start: &G,
    slots: &mut [Option<J::Done>],
    answers: &mut Vec<J::Done>,
)
where
    J::Done: Drop,
    requires slots { AreSlotsOf J.answers jobs.now slots.old }
    requires none { answers.old.items ≡ [] }
    requires room { length jobs.now ≤ vec_capacity answers.old }
    ensures { AllZip J.answers jobs.now answers.new.items }
{
    for number in 0..jobs.len() {
        let slot = swap_at(slots, number, None);
        answers.push_reserved(answer_in(&jobs[number], number, slot, start));
    }
}
