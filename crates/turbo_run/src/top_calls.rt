//! The top calls.
ghost use Rattle.std.specs.Prelude.{◌≡◌, ◌≤◌, IfOk};
ghost use Rattle.std.specs.List.{AllZip};
ghost use Rattle.model_receiver.specs.TransportBlocks.{outcome};
ghost use Rattle.block_receive.specs.Receptions.{receptions};
ghost use Rattle.run_loop.specs.Edges.{edges};
ghost use Rattle.turbo_run.specs.Run.{Runs};
ghost use Rattle.command_words.specs.Texts.{texts_of};
ghost use Rattle.command_decode.specs.Receivers.{AreReceived, GivesOutcomes, TakesTransmissions};
ghost use Rattle.command_batch.specs.Jobs.{answers};
ghost use Rattle.command_batch.specs.Runners.{AreRun, GivesAnswers, TakesJobs};

use crate::performing::perform;
use block_receive::Task;
use command_batch::{BlockJob, Outcomes, run_each};
use command_decode::Received;
use command_words::read_words;
use edge_io::{Sink, Source};
use lte_bits::Soft;
use rate_match::Sends;
use run_loop::{Status, write_fault_line};
use std::alloc::Global;
use std::sync::Wait;
use std::thread::Threads;
use tb_pipeline::{NoStart, through};
use window_workers::{Gate, NoGate};

/// Runs the command that the arguments ask for, and reports a fault. Blocks of a stream are decoded by
/// `receive` if one after the other, and by `run_jobs` if several at once.
fn run_by<
    F: Fn(Global, &Task, usize, &Sends, &[Soft]) -> Received,
    B: Fn(Global, &[BlockJob], usize) -> Outcomes,
    S: Source,
    D: Sink,
    R: Sink,
>(
    alloc: Global,
    words: &[&str],
    receive: &F,
    run_jobs: &B,
    source: &mut S,
    out: &mut D,
    report: &mut R,
) -> Status
    requires takes { TakesTransmissions (F.pre receive.now) }
    requires gives { GivesOutcomes (F.post receive.now) }
    requires takes_jobs { TakesJobs (B.pre run_jobs.now) }
    requires gives_answers { GivesAnswers (B.post run_jobs.now) }
    ensures runs { Runs (texts_of words.now) source.old source.new out.old out.new
        (edges S.Source D.Sink R.Sink source.old out.old report.old)
        (edges S.Source D.Sink R.Sink source.new out.new report.new) result }
{
    match read_words(words) {
        Ok(command) => {
            let status = perform(alloc, command, receive, run_jobs, source, out, report);
            write_fault_line(report, status);
            status
        }
        Err(refusal) => {
            let status = Status::BadWords {
                number: refusal.number,
                place: refusal.place,
            };
            write_fault_line(report, status);
            status
        }
    }
}

/// Runs the command that the arguments ask for, from the source to `out` and the report, on one thread.
pub fn run_alone<S: Source, D: Sink, R: Sink>(
    alloc: Global,
    words: &[&str],
    source: &mut S,
    out: &mut D,
    report: &mut R,
) -> Status
    ensures runs { Runs (texts_of words.now) source.old source.new out.old out.new
        (edges S.Source D.Sink R.Sink source.old out.old report.old)
        (edges S.Source D.Sink R.Sink source.new out.new report.new) result }
{
    let receive = |alloc: Global, task: &Task, workers: usize, sends: &Sends, softs: &[Soft]| -> Received
        requires { AreReceived task.now workers sends.now softs.now }
        ensures { IfOk result (λ o. o ≡ outcome task.now.plan task.now.limits
            (receptions sends.now softs.now)) }
    { task.receive_alone(alloc, sends, softs) };
    let run_jobs = |alloc: Global, jobs: &[BlockJob], pipes: usize| -> Outcomes
        requires { AreRun jobs.now pipes }
        ensures { IfOk result (AllZip answers jobs.now) }
    { run_each(alloc, jobs) };
    run_by(alloc, words, &receive, &run_jobs, source, out, report)
}

/// Runs the command that the arguments ask for, from the source to `out` and the report. Several workers of
/// `decode` may run on threads of their own, and each enters `gate` before each window that it decodes.
/// Several pipes of `batch` may run on threads of their own too; they enter no gate.
pub fn run_gated<H: Threads + Wait + Sync, S: Source, D: Sink, R: Sink, G: Gate + Sync>(
    rt: &H,
    alloc: Global,
    words: &[&str],
    source: &mut S,
    out: &mut D,
    report: &mut R,
    gate: &G,
) -> Status
    ensures runs { Runs (texts_of words.now) source.old source.new out.old out.new
        (edges S.Source D.Sink R.Sink source.old out.old report.old)
        (edges S.Source D.Sink R.Sink source.new out.new report.new) result }
{
    let receive = |alloc: Global, task: &Task, workers: usize, sends: &Sends, softs: &[Soft]| -> Received
        requires { AreReceived task.now workers sends.now softs.now }
        ensures { IfOk result (λ o. o ≡ outcome task.now.plan task.now.limits
            (receptions sends.now softs.now)) }
    {
        if workers == 1 {
            return task.receive_alone(alloc, sends, softs);
        }
        task.receive_shared(rt, alloc, sends, softs, workers, gate)
    };
    let run_jobs = |alloc: Global, jobs: &[BlockJob], pipes: usize| -> Outcomes
        requires { AreRun jobs.now pipes }
        ensures { IfOk result (AllZip answers jobs.now) }
    {
        if pipes == 1 {
            return run_each(alloc, jobs);
        }
        through(rt, alloc, jobs, pipes, &NoStart)
    };
    run_by(alloc, words, &receive, &run_jobs, source, out, report)
}

/// Runs the command that the arguments ask for, from the source to `out` and the report. Several workers of
/// `decode`, or pipes of `batch`, may run on threads of their own.
pub fn run<H: Threads + Wait + Sync, S: Source, D: Sink, R: Sink>(
    rt: &H,
    alloc: Global,
    words: &[&str],
    source: &mut S,
    out: &mut D,
    report: &mut R,
) -> Status
    ensures runs { Runs (texts_of words.now) source.old source.new out.old out.new
        (edges S.Source D.Sink R.Sink source.old out.old report.old)
        (edges S.Source D.Sink R.Sink source.new out.new report.new) result }
{
    run_gated(rt, alloc, words, source, out, report, &NoGate)
}
