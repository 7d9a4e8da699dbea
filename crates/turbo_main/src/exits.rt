//! How the program exits.
ghost use Rattle.std.specs.Prelude.{◌≡◌, IfOk, IfErr, map, drop, string_bytes};
ghost use Rattle.std.specs.Vec.Iter.{into_iter_items};
ghost use Rattle.std.specs.IoError.{error_kind};
ghost use Rattle.std.specs.Process.{exit_status};
ghost use Rattle.run_loop.specs.Edges.{edges};
ghost use Rattle.run_loop.specs.Exit.{exit_of};
ghost use Rattle.turbo_main.specs.Exits.{exit_unread, RunsTo};

use crate::arguments::{lent, words_after_name};
use edge_io::{Sink, Source};
use std::alloc::{AllocError, Global};
use std::env::Args;
use std::io;
use std::process::ExitCode;
use std::sync::Wait;
use std::thread::Threads;
use turbo_run::{Status, run};

/// Returns the exit status of a run that ended so.
fn exit(status: Status) -> ExitCode
    ensures { exit_status result ≡ exit_of status }
{
    ExitCode::from(status.exit())
}

/// Returns the status of a run whose arguments couldn't be read: `NoMemory` if memory ran out; else one isn't
/// UTF-8, and it is that of a run without arguments.
fn unread(error: &io::Error) -> Status
    ensures { exit_of result ≡ exit_unread (error_kind error.now) }
{
    match error.kind() {
        io::ErrorKind::OutOfMemory => Status::NoMemory,
        _ => Status::BadWords {
            number: 1,
            place: 0,
        },
    }
}

/// Runs the command that these arguments ask for.
fn run_words<H: Threads + Wait + Sync, S: Source, D: Sink, R: Sink>(
    rt: &H,
    alloc: Global,
    words: &[String],
    source: &mut S,
    out: &mut D,
    report: &mut R,
) -> ExitCode
    ensures runs { RunsTo (map string_bytes words.now)
        source.old source.new out.old out.new report.old report.new
        (edges S.Source D.Sink R.Sink source.old out.old report.old)
        (edges S.Source D.Sink R.Sink source.new out.new report.new) (exit_status result) }
{
    let Ok(words) = lent(alloc, words) else {
        return exit(Status::NoMemory);
    };
    exit(run(rt, alloc, &words, source, out, report))
}

/// Runs the command that the program's arguments ask for, from the source to `out` and the report, and
/// returns the program's exit code. The first argument is the program's name. If the arguments couldn't be
/// read, nothing is read or written.
pub fn exit_of_run<H: Threads + Wait + Sync, S: Source, D: Sink, R: Sink>(
    rt: &H,
    alloc: Global,
    arguments: io::Result<Args>,
    source: &mut S,
    out: &mut D,
    report: &mut R,
) -> ExitCode
    ensures unread { IfErr arguments (λ error. (exit_status result ≡ exit_unread (error_kind error))
        × (source.new ≡ source.old) × (out.new ≡ out.old) × (report.new ≡ report.old)) }
    ensures runs { IfOk arguments (λ arguments. RunsTo (map string_bytes (drop 1 (into_iter_items arguments)))
        source.old source.new out.old out.new report.old report.new
        (edges S.Source D.Sink R.Sink source.old out.old report.old)
        (edges S.Source D.Sink R.Sink source.new out.new report.new) (exit_status result)) }
{
    match arguments {
        Ok(arguments) => match words_after_name(alloc, arguments) {
            Ok(words) => run_words(rt, alloc, &words, source, out, report),
            Err(AllocError) => exit(Status::NoMemory),
        },
        Err(error) => exit(unread(&error)),
    }
}
