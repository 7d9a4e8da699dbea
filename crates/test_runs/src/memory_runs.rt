//! Runs of the program over memory.
use crate::lists::{list_of, sink_of, words_of};
use edge_io::{MemSink, MemSource};
use std::alloc::{AllocError, Global};
use std::test::Fail;
use turbo_run::{Status, run_alone};

/// A source and two sinks: how many bytes they move at a time, and which of their calls fail.
#[derive(Clone, Copy)]
pub struct Edges<'a> {
    pub piece: usize,
    pub reads: &'a [u64],
    pub outs: &'a [u64],
    pub reports: &'a [u64],
}

/// How a run ended, what `out` and the report hold, and how many bytes the source had and still has.
#[derive(Drop)]
pub struct Ran {
    pub status: Status,
    pub out: MemSink,
    pub report: MemSink,
    pub had: usize,
    pub left: usize,
}

/// Returns edges that don't fail.
pub fn sound(piece: usize) -> Edges<'static> {
    Edges {
        piece,
        reads: &[],
        outs: &[],
        reports: &[],
    }
}

/// The room of a sink: enough for the report of 4,096 blocks.
const ROOM: usize = 300_000;

/// Does what the words of a line ask for, on one thread.
pub fn run_of(
    alloc: Global,
    line: &str,
    input: &[u8],
    edges: Edges<'_>,
) -> Result<Ran, AllocError> {
    let words = words_of(alloc, line)?;
    let piece = edges.piece.max(1);
    let mut source = MemSource::new(list_of(alloc, input)?, piece, list_of(alloc, edges.reads)?);
    let mut out = sink_of(alloc, ROOM, piece, edges.outs)?;
    let mut report = sink_of(alloc, ROOM, piece, edges.reports)?;
    let status = run_alone(alloc, &words, &mut source, &mut out, &mut report);
    Ok(Ran {
        status,
        out,
        report,
        had: input.len(),
        left: source.left().len(),
    })
}

/// Returns how many bytes a run that ended so leaves of its source: all where it had nothing to read, and
/// none where the input is read to its end. No number is known of other endings.
fn left_by(line: &str, ran: &Ran) -> Option<usize> {
    match ran.status {
        Status::BadWords { .. } => Some(ran.had),
        Status::Done | Status::SomeFailed if line.starts_with("trial ") => Some(ran.had),
        Status::Done | Status::SomeFailed => Some(0),
        _ => None,
    }
}

/// Whether a run ended so, with this output and this report, and left of its source what such an ending leaves.
fn expect(line: &str, ran: &Ran, want: (Status, &[u8], &str)) -> Result<(), Fail> {
    let (status, out, report) = want;
    if ran.status != status || ran.out.bytes() != out {
        return Err(Fail::new(format_args!("of {line}: {:?}, {:?}", ran.status, ran.out.bytes())));
    }
    if ran.report.bytes() != report.as_bytes() {
        return Err(Fail::new(format_args!("of {line}: report {:?}", ran.report.bytes())));
    }
    match left_by(line, ran) {
        Some(left) if left != ran.left => {
            Err(Fail::new(format_args!("of {line}: {} of {} are left", ran.left, ran.had)))
        }
        _ => Ok(()),
    }
}

/// Does what a line asks for, in pieces of 1 and of 7 bytes, with no failure.
pub fn expect_run(
    alloc: Global,
    line: &str,
    input: &[u8],
    want: (Status, &[u8], &str),
) -> Result<(), Fail> {
    for piece in [1, 7] {
        let ran = run_of(alloc, line, input, sound(piece))?;
        expect(line, &ran, want)?;
    }
    Ok(())
}

/// Does so where the bytes that one line writes are the input of the next, up to the last line.
pub fn chain_of(alloc: Global, lines: &[&str], input: &[u8]) -> Result<Option<Ran>, AllocError> {
    let mut ran: Option<Ran> = None;
    for line in lines {
        let next = match &ran {
            Some(before) => run_of(alloc, line, before.out.bytes(), sound(4096))?,
            None => run_of(alloc, line, input, sound(4096))?,
        };
        ran = Some(next);
    }
    Ok(ran)
}

/// What the last of several lines leaves, which is done.
pub fn expect_chain(
    alloc: Global,
    lines: &[&str],
    input: &[u8],
    want: (&[u8], &str),
) -> Result<(), Fail> {
    let ran = chain_of(alloc, lines, input)?.ok_or("some command ran")?;
    let last = lines.last().copied().unwrap_or("");
    expect(last, &ran, (Status::Done, want.0, want.1))
}
