//! Each command.
ghost use Rattle.run_loop.specs.Edges.{edges};
ghost use Rattle.std.specs.Prelude.{IfSome};
ghost use Rattle.run_loop.specs.Reply.{Ends, EndsReply};
ghost use Rattle.turbo_run.specs.Run.{answer_of, unread_of, LeavesAlone};
ghost use Rattle.command_words.specs.Lawful.{IsLawful};
ghost use Rattle.command_decode.specs.Receivers.{GivesOutcomes, TakesTransmissions};
ghost use Rattle.command_batch.specs.Runners.{GivesAnswers, TakesJobs};

use block_receive::Task;
use coded_stream::{Header, Kind};
use command_batch::{Batch, BlockJob, Outcomes, Pipes};
use command_decode::{Decoding, Received};
use command_encode::{Codeword, Encode};
use command_relay::{Converted, Points, Scramble, Upgrade};
use command_trial::{Trial, run_trial};
use command_words::Command;
use edge_io::{Sink, Source};
use lte_bits::Soft;
use rate_match::Sends;
use run_loop::{Status, drive};
use std::alloc::Global;
use stream_loop::Stream;

/// Runs a command, without the fault line. Blocks of a stream are decoded by `receive` if one after the
/// other, and by `run_jobs` if several at once.
pub fn perform<
    F: Fn(Global, &Task, usize, &Sends, &[Soft]) -> Received,
    B: Fn(Global, &[BlockJob], usize) -> Outcomes,
    S: Source,
    D: Sink,
    R: Sink,
>(
    alloc: Global,
    command: Command,
    receive: &F,
    run_jobs: &B,
    source: &mut S,
    out: &mut D,
    report: &mut R,
) -> Status
    requires lawful { IsLawful command }
    requires takes { TakesTransmissions (F.pre receive.now) }
    requires gives { GivesOutcomes (F.post receive.now) }
    requires takes_jobs { TakesJobs (B.pre run_jobs.now) }
    requires gives_answers { GivesAnswers (B.post run_jobs.now) }
    ensures ends { Ends (answer_of command)
        (edges S.Source D.Sink R.Sink source.old out.old report.old)
        (edges S.Source D.Sink R.Sink source.new out.new report.new) result }
    ensures alone { LeavesAlone command source.old source.new out.old out.new }
    ensures unread { IfSome (unread_of command) (λ reply. EndsReply reply
        (edges S.Source D.Sink R.Sink source.old out.old report.old)
        (edges S.Source D.Sink R.Sink source.new out.new report.new) result) }
{
    match command {
        Command::Codeword { m, rv } => drive(alloc, Codeword { m, rv }, source, out, report),
        Command::Encode { version, tb, sends } => {
            let kind = Kind::Hard;
            let header = Header {
                version,
                kind,
                tb,
                sends,
            };
            drive(alloc, Encode { header }, source, out, report)
        }
        Command::Decode { limits, workers } => {
            let limits = &limits;
            let decoding = Decoding {
                receive,
                workers,
                limits,
            };
            drive(alloc, Stream(decoding), source, out, report)
        }
        Command::Batch { pipes, limits } => {
            let limits = &limits;
            let run = run_jobs;
            let runner = Pipes { run, pipes };
            drive(alloc, Batch { runner, limits }, source, out, report)
        }
        Command::Channel(channel) => {
            drive(alloc, Stream(Converted(channel)), source, out, report)
        }
        Command::Upgrade => drive(alloc, Stream(Converted(Upgrade)), source, out, report),
        Command::Trial {
            blocks,
            tb,
            sends,
            channel,
            limits,
        } => {
            let trial = Trial {
                blocks,
                tb,
                sends,
                channel,
                limits,
            };
            run_trial(alloc, &trial, report)
        }
        Command::Scramble {
            rnti,
            q,
            slot,
            cell,
        } => {
            let scramble = Scramble {
                rnti,
                q,
                slot,
                cell,
            };
            drive(alloc, Stream(Converted(scramble)), source, out, report)
        }
        Command::Points(channel) => {
            let points = Points { channel };
            drive(alloc, Stream(Converted(points)), source, out, report)
        }
    }
}
