//! Runs of `decode` and `batch` in which a read or a write fails.
use std::alloc::Global;
use std::test::Fail;
use test_runs::{END, Edges, LENGTH_2, SOFT, failing_values, joined, run_of, sound};
use turbo_run::{SinkName, Status};

const LINES: &str =
    "block 0 delivered bytes 2 transmissions 1 iterations 1\nblock 1 failed transmissions 1 iterations 3\n";

/// The commands that decode a stream, and do the same.
const DECODERS: [&str; 4] = [
    "decode limit=3",
    "batch pipes=1 limit=3",
    "batch limit=3",
    "batch pipes=8 limit=3",
];

/// Returns a stream of a block that is delivered and one that fails.
fn two_blocks(alloc: Global) -> Result<Vec<u8>, Fail> {
    let values = failing_values(alloc)?;
    Ok(joined(
        alloc,
        &[&SOFT, &LENGTH_2, &[0; 132], &LENGTH_2, &values, &END],
    )?)
}

#[test]
fn each_read_fails_in_turn(rt: HostRuntime) -> Result<(), Fail> {
    let input = two_blocks(rt.alloc())?;
    // The first line ends after 55 bytes.
    let line = &LINES[..55];
    for decoder in DECODERS {
        for n in 0..=input.len() {
            let calls = [n as u64];
            let edges = Edges {
                piece: 1,
                reads: &calls,
                outs: &[],
                reports: &[],
            };
            let ran = run_of(rt.alloc(), decoder, &input, edges)?;
            assert_eq!(rt; ran.status, Status::ReadFault);
            let (out, told): (&[u8], &str) = if n < 155 {
                (&[], "")
            } else if n < 291 {
                (&[0, 0], line)
            } else {
                (&[0, 0], LINES)
            };
            assert_eq!(rt; ran.out.bytes(), out);
            let told = format!(in rt.alloc(); "{told}read fault\n")?;
            assert_eq!(rt; ran.report.bytes(), told.as_bytes());
        }
    }
    Ok(())
}

#[test]
fn each_write_to_out_fails_in_turn(rt: HostRuntime) -> Result<(), Fail> {
    let input = two_blocks(rt.alloc())?;
    for decoder in DECODERS {
        for n in 0..2u64 {
            let edges = Edges {
                piece: 1,
                reads: &[],
                outs: &[n],
                reports: &[],
            };
            let ran = run_of(rt.alloc(), decoder, &input, edges)?;
            assert_eq!(rt;
                ran.status,
                Status::WriteFault {
                    sink: SinkName::Out
                }
            );
            assert_eq!(rt; ran.out.bytes().len() as u64, n);
            assert_eq!(rt; ran.report.bytes(), b"write fault out\n".as_slice());
        }
    }
    Ok(())
}

#[test]
fn each_write_to_the_report_fails_in_turn(rt: HostRuntime) -> Result<(), Fail> {
    let input = two_blocks(rt.alloc())?;
    for decoder in DECODERS {
        let whole = run_of(rt.alloc(), decoder, &input, sound(1))?;
        assert_eq!(rt; whole.status, Status::SomeFailed);
        for n in 0..whole.report.bytes().len() {
            let calls = [n as u64];
            let edges = Edges {
                piece: 1,
                reads: &[],
                outs: &[],
                reports: &calls,
            };
            let ran = run_of(rt.alloc(), decoder, &input, edges)?;
            assert_eq!(rt;
                ran.status,
                Status::WriteFault {
                    sink: SinkName::Report
                }
            );
            assert_eq!(rt; ran.out.bytes(), [0u8, 0].as_slice());
            let told = whole.report.bytes();
            assert_eq!(rt; ran.report.bytes(), &told[..n.min(told.len())]);
        }
    }
    Ok(())
}
