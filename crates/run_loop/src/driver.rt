//! The loop over a command's work.
ghost use Rattle.std.specs.Prelude.{◌≡◌};
ghost use Rattle.run_loop.specs.Edges.{edges};
ghost use Rattle.run_loop.specs.Reply.{reading, Ends};
ghost use Rattle.run_loop.specs.Step.{done};

use crate::putting::{put, put_all};
use crate::{Open, Round, Status, Stop, Work};
use edge_io::{Sink, Source};
use std::alloc::Global;

/// Returns the status of a completed run.
fn done(failed: bool) -> Status
    ensures { result ≡ done failed }
{
    if failed {
        Status::SomeFailed
    } else {
        Status::Done
    }
}

/// Opens a command and runs its work round by round: writes the parts of each round before the next begins,
/// each part's text to `out` and then its line to the report. After the last part it writes the closing text
/// of `out`, and then the report's last line.
///
/// It ends `Done`, or `SomeFailed` if the work says so, with the whole answer written; `BadStream` after the
/// blocks before the refused byte; `ReadFault`, `WriteFault` or `NoMemory` after those that were finished.
/// After a failed write, a prefix of the text or line being written is there.
pub fn drive<O: Open, S: Source, D: Sink, R: Sink>(
    alloc: Global,
    command: O,
    source: &mut S,
    out: &mut D,
    report: &mut R,
) -> Status
    requires { O.able command }
    ensures { Ends (λ input. reading (O.answer command input))
        (edges S.Source D.Sink R.Sink source.old out.old report.old)
        (edges S.Source D.Sink R.Sink source.new out.new report.new) result }
{
    let mut work = match command.open(alloc, source, out) {
        Ok(work) => work,
        Err(status) => return status,
    };
    loop {
        let Round { parts, stop } = match work.round(alloc, source) {
            Ok(round) => round,
            Err(status) => return status,
        };
        if let Err(sink) = put_all(out, report, parts.as_slice()) {
            return Status::WriteFault { sink };
        }
        match stop {
            Stop::Go => {}
            Stop::End {
                closing,
                last,
                failed,
            } => {
                if let Err(sink) = put(out, report, closing.as_slice(), last.as_slice()) {
                    return Status::WriteFault { sink };
                }
                return done(failed);
            }
            Stop::Fails(status) => return status,
        }
    }
}
