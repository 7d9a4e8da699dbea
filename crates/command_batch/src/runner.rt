//! Runs the jobs of a round.
ghost use Rattle.std.specs.Prelude.{◌≡◌, ◌≤◌, ℕ, IfOk, length};
ghost use Rattle.std.specs.List.{AllZip};
ghost use Rattle.command_batch.specs.Jobs.{answers};

use crate::job::BlockJob;
use command_decode::Received;
use lte_bits::{List, NoMemory};
use std::alloc::Global;

/// The results of a round's jobs, in their order, or running out of memory.
pub type Outcomes = Result<List<Received>, NoMemory>;

/// Runs the jobs of a round, by up to `pipes` pipes.
pub trait Runner: Drop {
    // Its precondition for running jobs.
    ghost able: { Self → Type 0 } = { λ _. Unit {0} };

    // How many pipes it has.
    ghost pipes: { Self → ℕ };

    /// Returns how many jobs it runs at once.
    fn pipes(&self) -> usize
        ensures value { result ≡ pipes self.now }
        ensures some { 1 ≤ result }
        ensures few { result ≤ 8 };

    /// Returns an answer of each of 1 to 16 jobs, in their order.
    fn run(&self, alloc: Global, jobs: &[BlockJob]) -> Outcomes
        requires able { able self.now }
        requires some { 1 ≤ length jobs.now }
        requires few { length jobs.now ≤ 16 }
        ensures { IfOk result (AllZip answers jobs.now) };
}

/// A closure that runs jobs by `pipes` pipes, 1 to 8.
#[derive(Drop)]
pub struct Pipes<'a, F: Fn(Global, &[BlockJob], usize) -> Outcomes> {
    pub run: &'a F,
    pub pipes: usize,
    pub ghost some_pipes: { 1 ≤ pipes },
    pub ghost few_pipes: { pipes ≤ 8 },
}

impl<'a, F: Fn(Global, &[BlockJob], usize) -> Outcomes> Runner for Pipes<'a, F> {
    ghost use Rattle.command_batch.specs.Runners.{GivesAnswers, TakesJobs};

    ghost able = { λ s. TakesJobs (F.pre s.run.now) × GivesAnswers (F.post s.run.now) };

    ghost pipes = { λ s. s.pipes };

    fn pipes(&self) -> usize {
        self.pipes
    }

    fn run(&self, alloc: Global, jobs: &[BlockJob]) -> Outcomes {
        (self.run)(alloc, jobs, self.pipes)
    }
}
