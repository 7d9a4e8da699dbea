//! Output and report lines of a round.
ghost use Rattle.std.specs.Prelude.{◌≡◌, ◌≤◌, ◌<◌, ◌+◌, IfOk, length};
ghost use Rattle.std.specs.List.{AllZip};
ghost use Rattle.model_receiver.specs.Limits.{DecoderLimits};
ghost use Rattle.coded_stream.specs.Header.{Header};
ghost use Rattle.run_loop.specs.Step.{part_of, parts_of};
ghost use Rattle.stream_loop.specs.Handling.{one_if};
ghost use Rattle.command_batch.specs.Jobs.{answers};
ghost use Rattle.command_batch.specs.Parts.{failures, handled_job, job_part, job_parts, StopsAs};

use crate::job::BlockJob;
use crate::reading::Reached;
use command_decode::{Received, handled, last_line};
use lte_bits::{List, NoMemory};
use run_loop::{Part, Stop};
use std::alloc::Global;
use stream_loop::{Handled, status_of};

/// Returns the part of a job whose block has this number, and whether the block failed.
fn part_of(
    alloc: Global,
    number: usize,
    job: &BlockJob,
    received: Received,
) -> Result<(Part, bool), NoMemory>
    requires answers { answers job.now received }
    ensures { IfOk result (λ made. (part_of made.0 ≡ job_part number job.now)
        × (made.1 ≡ (handled_job number job.now).failed)) }
{
    let Handled { text, line, failed } = handled(alloc, number, received?)?;
    let size = 4 + job.bytes.as_slice().len();
    let part = Part {
        text,
        line,
        size,
        wants: size,
    };
    Ok((part, failed))
}

/// Returns the parts of jobs, the first of which has this number, and how many of their blocks failed.
pub fn parts_of(
    alloc: Global,
    first: usize,
    jobs: &[BlockJob],
    outcomes: List<Received>,
) -> Result<(Vec<Part>, usize), NoMemory>
    requires answers { AllZip answers jobs.now outcomes }
    requires few { first + length jobs.now ≤ 4096 }
    ensures parts { IfOk result (λ made. parts_of made.0.items ≡ job_parts first jobs.now) }
    ensures failed { IfOk result (λ made. made.1 ≡ failures first jobs.now) }
{
    let mut parts = Vec::with_capacity(alloc, jobs.len())?;
    let mut failures = 0;
    for received in outcomes.into_vec() {
        let i = parts.len();
        let (part, failed) = part_of(alloc, first + i, &jobs[i], received)?;
        parts.push(part)?;
        failures += usize::from(failed);
    }
    Ok((parts, failures))
}

/// Returns how the round stops, after `blocks` blocks of which `failed` failed.
pub fn stop_of(
    alloc: Global,
    reached: Reached,
    blocks: usize,
    failed: usize,
) -> Result<Stop, NoMemory>
    requires few { blocks ≤ 4096 }
    requires failed { failed ≤ blocks }
    ensures { IfOk result (λ stop. (limits : DecoderLimits) (h : Header) → StopsAs limits h blocks failed reached stop) }
{
    match reached {
        Reached::Full => Ok(Stop::Go),
        Reached::End => Ok(Stop::End {
            closing: Vec::new(alloc),
            last: last_line(alloc, blocks, failed)?,
            failed: failed > 0,
        }),
        Reached::Stopped(stop) => Ok(Stop::Fails(status_of(stop))),
    }
}
