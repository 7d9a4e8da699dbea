//! Runs of `decode` and `batch` over memory.
use std::test::Fail;
use test_runs::{
    END, HARD, LENGTH_2, SOFT, SOFT_TWICE, expect_chain, expect_run, failing_values, joined,
    run_of, small_blocks, sound,
};
use turbo_run::Status;

/// The commands that decode a stream, and do the same.
const DECODERS: [&str; 4] = ["decode", "batch pipes=1", "batch", "batch pipes=8"];

const DELIVERED: &str = "block 0 delivered bytes 2 transmissions 1 iterations 1\n";

#[test]
fn values_that_say_nothing_deliver_zeros(rt: HostRuntime) -> Result<(), Fail> {
    let input = joined(rt.alloc(), &[&SOFT, &LENGTH_2, &[0; 132], &END])?;
    assert_eq!(rt; input.len(), 159);
    let report = format!(in rt.alloc(); "{DELIVERED}end blocks 1 delivered 1 failed 0\n")?;
    let done = (Status::Done, [0u8, 0].as_slice(), report.as_str());
    expect_run(rt.alloc(), "decode", &input, done)
}

#[test]
fn streams_that_are_cut_or_too_long_are_refused(rt: HostRuntime) -> Result<(), Fail> {
    let input = joined(rt.alloc(), &[&SOFT, &LENGTH_2, &[0; 132], &END, &[0]])?;
    let whole = &input[..159.min(input.len())];
    let refused = |number: u8, place: u64| Status::BadStream { number, place };
    let cut = &input[..100.min(input.len())];
    let nothing: &[u8] = &[];
    let ended = (refused(6, 100), nothing, "bad stream 6 at 100\n");
    expect_run(rt.alloc(), "decode", cut, ended)?;
    let report = format!(in rt.alloc(); "{DELIVERED}bad stream 7 at 159\n")?;
    let ended = (refused(7, 159), [0u8, 0].as_slice(), report.as_str());
    expect_run(rt.alloc(), "decode", &input, ended)?;
    // A stream of the other kind.
    let ended = (refused(2, 4), nothing, "bad stream 2 at 4\n");
    expect_run(rt.alloc(), "channel amp=1 noise=0 seed=0", whole, ended)?;
    expect_run(rt.alloc(), "decode", &HARD, ended)
}

#[test]
fn a_second_transmission_delivers_what_the_first_does_not(rt: HostRuntime) -> Result<(), Fail> {
    let values = failing_values(rt.alloc())?;
    let alone = joined(rt.alloc(), &[&SOFT, &LENGTH_2, &values, &END])?;
    let report = "block 0 failed transmissions 1 iterations 3\nend blocks 1 delivered 0 failed 1\n";
    let nothing: &[u8] = &[];
    let failed = (Status::SomeFailed, nothing, report);
    assert_eq!(rt; Status::SomeFailed.exit(), 1);
    expect_run(rt.alloc(), "decode limit=3", &alone, failed)?;
    let both = joined(
        rt.alloc(),
        &[&SOFT_TWICE, &LENGTH_2, &values, &[100; 132], &END],
    )?;
    let report =
        "block 0 delivered bytes 2 transmissions 2 iterations 1\nend blocks 1 delivered 1 failed 0\n";
    let done = (Status::Done, [0u8, 0].as_slice(), report);
    expect_run(rt.alloc(), "decode limit=3", &both, done)
}

#[test]
fn failed_blocks_add_a_line_alone(rt: HostRuntime) -> Result<(), Fail> {
    let values = failing_values(rt.alloc())?;
    let input = joined(
        rt.alloc(),
        &[&SOFT, &LENGTH_2, &values, &LENGTH_2, &[100; 132], &END],
    )?;
    let report = "block 0 failed transmissions 1 iterations 3\n\
                  block 1 delivered bytes 2 transmissions 1 iterations 1\n\
                  end blocks 2 delivered 1 failed 1\n";
    let failed = (Status::SomeFailed, [0u8, 0].as_slice(), report);
    for decoder in DECODERS {
        let line = format!(in rt.alloc(); "{decoder} limit=3")?;
        expect_run(rt.alloc(), line.as_str(), &input, failed)?;
    }
    Ok(())
}

// The few parity bits say nothing of any one bit alone. So each is decided 0, and the checks of zeros hold.
#[test]
fn a_reception_of_little_but_parity_may_decode_to_zeros(rt: HostRuntime) -> Result<(), Fail> {
    let report = format!(in rt.alloc(); "{DELIVERED}end blocks 1 delivered 1 failed 0\n")?;
    let zeros = ([0u8, 0].as_slice(), report.as_str());
    let senders = [
        "encode tb=2 g=2 qm=2 rv=2",
        "encode tb=2 g=32 qm=2 rv=2",
        "encode tb=2 g=8 qm=2 rv=3",
    ];
    for sender in senders {
        let lines = [sender, "channel amp=40 noise=0 seed=1", "decode"];
        expect_chain(rt.alloc(), &lines, &[0xA5, 0x55], zeros)?;
    }
    Ok(())
}

#[test]
fn every_cut_is_refused_where_it_is(rt: HostRuntime) -> Result<(), Fail> {
    let input = joined(rt.alloc(), &[&SOFT, &LENGTH_2, &[0; 132], &END])?;
    for decoder in DECODERS {
        for n in 0..input.len() {
            let ran = run_of(rt.alloc(), decoder, &input[..n], sound(7))?;
            let refused = Status::BadStream {
                number: 6,
                place: n as u64,
            };
            assert_eq!(rt; ran.status, refused);
            let whole: &[u8] = if n < 155 { &[] } else { &[0, 0] };
            assert_eq!(rt; ran.out.bytes(), whole);
        }
    }
    Ok(())
}

#[test]
fn each_change_of_a_stream_is_refused_at_its_byte(rt: HostRuntime) -> Result<(), Fail> {
    // The byte that is changed, and to what; the number and the place of the refusal.
    let rows: [(usize, u8, u8, u64); 11] = [
        (0, 0x4D, 1, 0),
        (4, 0x02, 2, 4),
        (5, 0x03, 3, 5),
        (6, 0x03, 3, 6),
        (7, 0x00, 3, 7),
        (7, 0x09, 3, 7),
        // tb is 0.
        (9, 0x00, 3, 8),
        // G is 133.
        (13, 0x85, 3, 10),
        (17, 0x01, 3, 14),
        (18, 0x04, 3, 18),
        (22, 0x03, 4, 19),
    ];
    for (at, byte, number, place) in rows {
        let mut input = joined(rt.alloc(), &[&SOFT, &LENGTH_2, &[0; 132], &END])?;
        if let Some(changed) = input.get_mut(at) {
            *changed = byte;
        }
        let report = format!(in rt.alloc(); "bad stream {number} at {place}\n")?;
        let refused = Status::BadStream { number, place };
        expect_run(
            rt.alloc(),
            "decode",
            &input,
            (refused, &[], report.as_str()),
        )?;
    }
    Ok(())
}

#[test]
fn streams_of_4096_blocks_are_decoded(rt: HostRuntime) -> Result<(), Fail> {
    let refused = Status::BadStream {
        number: 8,
        place: 24_595,
    };
    let rows: [(usize, Status, &[u8]); 2] = [
        (
            4096,
            Status::Done,
            b"end blocks 4096 delivered 4096 failed 0\n",
        ),
        (4097, refused, b"bad stream 8 at 24595\n"),
    ];
    for decoder in DECODERS {
        for (count, status, last) in rows {
            let input = small_blocks(rt.alloc(), count)?;
            let ran = run_of(rt.alloc(), decoder, &input, sound(4096))?;
            assert_eq!(rt; ran.status, status);
            assert_eq!(rt; ran.out.bytes(), [0; 4096].as_slice());
            assert!(rt; ran.report.bytes().ends_with(last), "of {count} blocks");
        }
    }
    Ok(())
}
