//! A trial as a whole.
ghost use Rattle.std.specs.Prelude.{◌≡◌, ◌≤◌, ℕ, List, IfOk};
ghost use Rattle.std.specs.declared.option.Option.{Option};
ghost use Rattle.run_loop.specs.Edges.{told};
ghost use Rattle.run_loop.specs.Reply.{Ends};
ghost use Rattle.command_trial.specs.Trials.{trial_of, counted, trial_line, trial_reply, IsTold};

use crate::counts::Counts;
use crate::trial::Trial;
use edge_io::{Sink, SinkFault, write_all};
use lte_bits::NoMemory;
use run_loop::{SinkName, Status, end_line, push_number};
use std::alloc::Global;

/// Returns the counts over all blocks.
fn counted(alloc: Global, trial: &Trial) -> Result<Counts, NoMemory>
    ensures { IfOk result (λ c. c ≡ counted (trial_of trial.now) trial.now.blocks) }
{
    let mut sums = Counts::new();
    for block in 0..trial.blocks {
        let sent = trial.payload(alloc, block)?;
        let outcome = trial.outcome(alloc, block, sent.as_slice())?;
        sums = sums.with(block, sent.as_slice(), &outcome);
    }
    Ok(sums)
}

/// Returns the report's one line.
fn trial_line(alloc: Global, blocks: usize, sums: &Counts) -> Result<Vec<u8>, NoMemory>
    ensures { IfOk result (λ line. line.items ≡ trial_line blocks sums.now) }
{
    let mut line = Vec::new(alloc);
    push_number(&mut line, b"trial blocks ", blocks as u128)?;
    push_number(&mut line, b" delivered ", sums.delivered as u128)?;
    push_number(&mut line, b" matched ", sums.matched as u128)?;
    push_number(&mut line, b" failed ", sums.failed as u128)?;
    push_number(&mut line, b" transmissions ", sums.transmissions)?;
    push_number(&mut line, b" iterations ", sums.iterations)?;
    end_line(&mut line)?;
    Ok(line)
}

/// Returns the line of all blocks, and whether one of them failed.
fn summed(alloc: Global, trial: &Trial) -> Result<(Vec<u8>, bool), NoMemory>
    ensures { IfOk result (λ made. IsTold (trial_of trial.now) made.0.items made.1) }
{
    let sums = counted(alloc, trial)?;
    let line = trial_line(alloc, trial.blocks, &sums)?;
    Ok((line, sums.failed > 0))
}

/// Runs a trial, and writes its line to the report: `Done`, or `SomeFailed` where a block failed. Nothing is
/// read, and nothing goes to `out`.
pub fn run_trial<R: Sink>(alloc: Global, trial: &Trial, report: &mut R) -> Status
    ensures { (left out : Option (List ℕ)) (reads outs : ℕ) → Ends (λ _. trial_reply (trial_of trial.now))
        (told left out (R.held report.old) reads outs (R.faults report.old))
        (told left out (R.held report.new) reads outs (R.faults report.new)) result }
{
    match summed(alloc, trial) {
        Ok((line, failed)) => {
            if let Err(SinkFault) = write_all(report, line.as_slice()) {
                return Status::WriteFault {
                    sink: SinkName::Report,
                };
            }
            if failed {
                Status::SomeFailed
            } else {
                Status::Done
            }
        }
        Err(NoMemory) => Status::NoMemory,
    }
}
