//! Runs of `decode` over several code blocks, of which some pass at once, by one worker and by several.
use crate::shared_runs::assert_run;
use std::test::Fail;
use test_blocks::{sent_of_block, zeros_and_one};
use test_runs::{END, bytes_of, expect_run, joined, large_header};
use turbo_run::Status;

// Block 0 passes at once. In the first row its later values would spoil it, were it decoded anew; in the
// second all pass but the transport block's check fails, so that none is kept.
#[test]
fn blocks_that_passed_are_kept(rt: HostRuntime) -> Result<(), Fail> {
    let failing = zeros_and_one(rt.alloc(), 3135, &[])?;
    let failing = sent_of_block(rt.alloc(), 766, 18840, 1, failing)?;
    let failing = bytes_of(rt.alloc(), &failing)?;
    // A one and its check bits.
    let passing = zeros_and_one(rt.alloc(), 3111, &[0x80, 0x00, 0x63])?;
    let passing = sent_of_block(rt.alloc(), 766, 18840, 1, passing)?;
    let passing = bytes_of(rt.alloc(), &passing)?;
    let rows: [(&[u8], u8, &str); 2] = [
        (
            &failing,
            0x81,
            "block 0 failed transmissions 1 iterations 4\nend blocks 1 delivered 0 failed 1\n",
        ),
        (
            &passing,
            100,
            "block 0 failed transmissions 1 iterations 2\nend blocks 1 delivered 0 failed 1\n",
        ),
    ];
    let length = [0, 0, 2, 0xFE];
    for (second, later, report) in rows {
        let first = joined(rt.alloc(), &[&[100; 9420], second])?;
        let once = large_header(rt.alloc(), 1)?;
        let alone = joined(rt.alloc(), &[&once, &length, &first, &END])?;
        let failed = (Status::SomeFailed, [].as_slice(), report);
        expect_run(rt.alloc(), "decode limit=3", &alone, failed)?;
        assert_run(&rt, "decode limit=3 workers=4", &alone, failed)?;
        let twice = large_header(rt.alloc(), 2)?;
        let both = joined(
            rt.alloc(),
            &[&twice, &length, &first, &[later; 9420], &[100; 9420], &END],
        )?;
        let report =
            "block 0 delivered bytes 766 transmissions 2 iterations 2\nend blocks 1 delivered 1 failed 0\n";
        let done = (Status::Done, [0; 766].as_slice(), report);
        expect_run(rt.alloc(), "decode limit=3", &both, done)?;
        assert_run(&rt, "decode limit=3 workers=4", &both, done)?;
    }
    Ok(())
}
