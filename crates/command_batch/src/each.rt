//! The jobs of a round on one thread.
ghost use Rattle.std.specs.Prelude.{◌≡◌, IfOk};
ghost use Rattle.std.specs.List.{AllZip};
ghost use Rattle.command_batch.specs.Jobs.{answers};

use crate::job::BlockJob;
use command_decode::Received;
use lte_bits::{List, NoMemory};
use std::alloc::Global;
use tb_pipeline::Job;

/// Runs the jobs one after the other.
pub fn run_each(alloc: Global, jobs: &[BlockJob]) -> Result<List<Received>, NoMemory>
    ensures { IfOk result (AllZip answers jobs.now) }
{
    let mut done = Vec::with_capacity(alloc, jobs.len())?;
    for job in jobs {
        done.push(job.run())?;
    }
    Ok(List::from_vec(done))
}
