//! Runs of the commands that write a stream out of a stream, in which a read or a write fails.
use std::alloc::{AllocError, Global};
use std::test::Fail;
use test_runs::{END, Edges, HARD, LENGTH_2, joined, run_of, sound};
use turbo_run::{SinkName, Status};

/// The commands, and how many bytes of their texts stand before the end word. The header has 19.
const COMMANDS: [(&str, usize); 4] = [
    ("channel amp=40 noise=0 seed=1", 155),
    ("points amp=40 noise=0 seed=1", 155),
    ("scramble rnti=0 q=0 slot=0 cell=0", 40),
    ("upgrade", 40),
];

const HEADER: usize = 19;

/// Returns a hard stream of one block.
fn sent(alloc: Global) -> Result<Vec<u8>, AllocError> {
    joined(alloc, &[&HARD, &LENGTH_2, &[0; 17], &END])
}

#[test]
fn each_read_fails_in_turn(rt: HostRuntime) -> Result<(), Fail> {
    let input = sent(rt.alloc())?;
    for (line, end) in COMMANDS {
        let whole = run_of(rt.alloc(), line, &input, sound(1))?;
        let text = whole.out.bytes();
        assert_eq!(rt;
            (whole.status, text.len()),
            (Status::Done, end.saturating_add(4))
        );
        // A read takes one byte, and the last finds the end.
        for n in 0..=input.len() {
            let calls = [n as u64];
            let edges = Edges {
                piece: 1,
                reads: &calls,
                outs: &[],
                reports: &[],
            };
            let ran = run_of(rt.alloc(), line, &input, edges)?;
            let stands = if n < HEADER {
                0
            } else if n < 40 {
                HEADER
            } else {
                end
            };
            assert_eq!(rt; ran.status, Status::ReadFault);
            assert_eq!(rt;
                ran.out.bytes(),
                &text[..stands.min(text.len())],
                "of {line}"
            );
            assert_eq!(rt; ran.report.bytes(), b"read fault\n".as_slice());
        }
    }
    Ok(())
}

#[test]
fn each_write_to_out_fails_in_turn(rt: HostRuntime) -> Result<(), Fail> {
    let input = sent(rt.alloc())?;
    for (line, end) in COMMANDS {
        let whole = run_of(rt.alloc(), line, &input, sound(1))?;
        let text = whole.out.bytes();
        for n in 0..text.len() {
            let calls = [n as u64];
            let edges = Edges {
                piece: 1,
                reads: &[],
                outs: &calls,
                reports: &[],
            };
            let ran = run_of(rt.alloc(), line, &input, edges)?;
            let left = if n < HEADER {
                25
            } else if n < end {
                4
            } else {
                0
            };
            let sink = SinkName::Out;
            assert_eq!(rt; ran.status, Status::WriteFault { sink });
            assert_eq!(rt; ran.out.bytes(), &text[..n], "of {line}");
            assert_eq!(rt; ran.report.bytes(), b"write fault out\n".as_slice());
            assert_eq!(rt; ran.left, left, "of {line}");
        }
    }
    Ok(())
}

#[test]
fn each_write_to_the_report_fails_in_turn(rt: HostRuntime) -> Result<(), Fail> {
    let input = sent(rt.alloc())?;
    let told = b"end blocks 1\n";
    for (line, _) in COMMANDS {
        let whole = run_of(rt.alloc(), line, &input, sound(1))?;
        for n in 0..told.len() {
            let calls = [n as u64];
            let edges = Edges {
                piece: 1,
                reads: &[],
                outs: &[],
                reports: &calls,
            };
            let ran = run_of(rt.alloc(), line, &input, edges)?;
            let sink = SinkName::Report;
            assert_eq!(rt; ran.status, Status::WriteFault { sink });
            assert_eq!(rt; ran.out.bytes(), whole.out.bytes(), "of {line}");
            assert_eq!(rt; ran.report.bytes(), &told[..n]);
            assert_eq!(rt; ran.left, 0);
        }
    }
    Ok(())
}
