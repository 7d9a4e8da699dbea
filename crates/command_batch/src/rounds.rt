//! The rounds of `batch`: the blocks of a round are read, then decoded, and then written.
ghost use Rattle.std.specs.Prelude.{◌≡◌, ◌≤◌, ◌*◌, ◌+◌, ◌-◌, IfOk, length};
ghost use Rattle.run_loop.specs.Step.{parts_of};
ghost use Rattle.command_batch.specs.Parts.{failures, job_parts};

use crate::job::BlockJob;
use crate::parts::{parts_of, stop_of};
use crate::reading::JobReader;
use crate::runner::Runner;
use edge_io::Source;
use lte_bits::NoMemory;
use run_loop::{Part, Round, Status, Work};
use std::alloc::Global;

/// The runner of a round's jobs, the reader, and how many blocks failed.
#[derive(Drop)]
pub struct BatchRounds<R: Runner> {
    pub runner: R,
    pub jobs: JobReader,
    pub failed: usize,
}

impl<R: Runner> BatchRounds<R> {
    /// Runs the jobs, the first of which has this number. Returns their parts, and how many blocks failed.
    fn done(
        &self,
        alloc: Global,
        first: usize,
        jobs: &[BlockJob],
    ) -> Result<(Vec<Part>, usize), NoMemory>
        requires able { R.able self.now.runner }
        requires round { length jobs.now ≤ 16 }
        requires few { first + length jobs.now ≤ 4096 }
        ensures parts { IfOk result (λ made. parts_of made.0.items ≡ job_parts first jobs.now) }
        ensures failed { IfOk result (λ made. made.1 ≡ failures first jobs.now) }
    {
        if jobs.is_empty() {
            return Ok((Vec::new(alloc), 0));
        }
        let outcomes = self.runner.run(alloc, jobs)?;
        parts_of(alloc, first, jobs, outcomes)
    }
}

impl<R: Runner> Work for BatchRounds<R> {
    ghost use Rattle.coded_stream.specs.Stream.{most_blocks};
    ghost use Rattle.command_decode.specs.Decoding.{decoding};
    ghost use Rattle.stream_loop.specs.Rounds.{IsReady};
    ghost use Rattle.command_batch.specs.Batch.{batch_ahead};

    ghost answer = { λ s input.
        batch_ahead s.jobs.limits (R.pipes s.runner) s.jobs.reader s.failed input };

    ghost ready = { λ s. R.able s.runner
        × IsReady (decoding s.jobs.limits) s.jobs.reader s.failed };

    ghost budget = { λ s. most_blocks - s.jobs.reader.blocks };

    fn round<S: Source>(&mut self, alloc: Global, source: &mut S) -> Result<Round, Status> {
        let first = self.jobs.reader.blocks();
        let most = 2 * self.runner.pipes();
        let Ok(mut jobs) = Vec::with_capacity(alloc, most) else {
            return Err(Status::NoMemory);
        };
        let reached = self.jobs.read_jobs(alloc, source, most, &mut jobs);
        let (parts, failed) = self.done(alloc, first, jobs.as_slice())?;
        self.failed += failed;
        let stop = stop_of(alloc, reached, self.jobs.reader.blocks(), self.failed)?;
        self.jobs.keep_rooms(jobs);
        Ok(Round { parts, stop })
    }
}
