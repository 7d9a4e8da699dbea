//! Runs of the program over threads.
use edge_io::MemSource;
use std::process::Abort;
use std::sync::Wait;
use std::test::Fail;
use std::thread::Threads;
use test_runs::{list_of, sink_of, words_of};
use turbo_run::{Status, run};

/// Does what a line asks for over threads, which is to end so, with this output and this report, and to leave
/// nothing of the input.
pub fn assert_run<H: Threads + Wait + Sync + Abort + AllocGlobal>(
    rt: &H,
    line: &str,
    input: &[u8],
    want: (Status, &[u8], &str),
) -> Result<(), Fail> {
    let alloc = rt.alloc();
    let words = words_of(alloc, line)?;
    let mut source = MemSource::new(list_of(alloc, input)?, 7, list_of(alloc, &[])?);
    let mut out = sink_of(alloc, 1000, 7, &[])?;
    let mut report = sink_of(alloc, 200, 7, &[])?;
    let status = run(rt, alloc, &words, &mut source, &mut out, &mut report);
    assert_eq!(rt; status, want.0, "of {line}");
    assert_eq!(rt; out.bytes(), want.1, "of {line}");
    assert_eq!(rt; report.bytes(), want.2.as_bytes(), "of {line}");
    assert!(rt; source.left().is_empty(), "of {line}");
    Ok(())
}
