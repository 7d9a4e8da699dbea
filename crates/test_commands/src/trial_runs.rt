//! Runs of `trial` over memory.
use std::test::Fail;
use test_runs::{Edges, expect_run, run_of, sound};
use turbo_run::{SinkName, Status};

#[test]
fn trials_count_what_was_delivered(rt: HostRuntime) -> Result<(), Fail> {
    // The third decides zeros, as little but parity does, and the fourth has 8 of 40 bits, twice.
    let rows = [
        (
            "trial seed=1 blocks=3 tb=2 g=132 qm=2 rv=0 amp=40 noise=0",
            Status::Done,
            "trial blocks 3 delivered 3 matched 3 failed 0 transmissions 3 iterations 3\n",
        ),
        (
            "trial seed=1 blocks=8 tb=9422 g=82800 qm=6 rv=0 nir=77328 amp=30 noise=0",
            Status::Done,
            "trial blocks 8 delivered 8 matched 8 failed 0 transmissions 8 iterations 104\n",
        ),
        (
            "trial seed=1 blocks=3 tb=2 g=2 qm=2 rv=2 amp=40 noise=0",
            Status::Done,
            "trial blocks 3 delivered 3 matched 0 failed 0 transmissions 3 iterations 3\n",
        ),
        (
            "trial seed=1 blocks=3 tb=2 g=8 qm=2 rv=0,0 amp=40 noise=0 limit=3",
            Status::SomeFailed,
            "trial blocks 3 delivered 0 matched 0 failed 3 transmissions 6 iterations 9\n",
        ),
    ];
    let nothing: &[u8] = &[];
    for (line, status, report) in rows {
        // Each run twice, on an input that isn't read.
        expect_run(rt.alloc(), line, b"left", (status, nothing, report))?;
    }
    Ok(())
}

#[test]
fn each_write_of_the_line_fails_in_turn(rt: HostRuntime) -> Result<(), Fail> {
    let line = "trial seed=1 blocks=1 tb=2 g=132 qm=2 rv=0 amp=40 noise=0";
    let whole = run_of(rt.alloc(), line, b"left", sound(1))?;
    let told = whole.report.bytes();
    for n in 0..told.len() {
        let calls = [n as u64];
        let edges = Edges {
            piece: 1,
            // Calls that aren't made.
            reads: &[0],
            outs: &[0],
            reports: &calls,
        };
        let ran = run_of(rt.alloc(), line, b"left", edges)?;
        let sink = SinkName::Report;
        assert_eq!(rt; ran.status, Status::WriteFault { sink });
        assert_eq!(rt; ran.left, 4);
        assert_eq!(rt; ran.report.bytes(), &told[..n.min(told.len())]);
    }
    Ok(())
}
