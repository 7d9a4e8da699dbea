//! Runs of `channel`, `upgrade`, `scramble` and `points` over memory, and of several commands in a row.
use crate::codeword_runs::BYTES_00_01;
use std::alloc::{AllocError, Global};
use std::test::Fail;
use test_runs::{
    END, HARD, LENGTH_2, SOFT, TWO, chain_of, counted, expect_chain, expect_run, joined,
};
use turbo_run::Status;

/// The header of version Two of no blocks but one transmission of G = 132.
const UPGRADED: [u8; 19] = [
    0x4C, 0x54, 0x43, 0x32, 0, 1, 0, 2, 0, 0, 0, 0, 2, 1, 0, 0, 0, 0, 132,
];

fn two_transmissions(alloc: Global) -> Result<Vec<u8>, AllocError> {
    joined(alloc, &[&TWO, &LENGTH_2, &BYTES_00_01, &[0xE6], &END])
}

#[test]
fn bits_without_noise_are_received_as_they_are_sent(rt: HostRuntime) -> Result<(), Fail> {
    let input = joined(rt.alloc(), &[&HARD, &LENGTH_2, &[0; 17], &END])?;
    let out = joined(rt.alloc(), &[&SOFT, &LENGTH_2, &[40; 132], &END])?;
    let done = (Status::Done, out.as_slice(), "end blocks 1\n");
    for command in ["channel", "points"] {
        let line = format!(in rt.alloc(); "{command} amp=40 noise=0 seed=1")?;
        expect_run(rt.alloc(), line.as_str(), &input, done)?;
    }
    Ok(())
}

#[test]
fn streams_are_upgraded(rt: HostRuntime) -> Result<(), Fail> {
    let none = joined(rt.alloc(), &[&HARD, &END])?;
    let upgraded = joined(rt.alloc(), &[&UPGRADED, &END])?;
    let done = (Status::Done, upgraded.as_slice(), "end blocks 0\n");
    expect_run(rt.alloc(), "upgrade", &none, done)?;
    expect_run(rt.alloc(), "upgrade", &upgraded, done)?;
    // A soft value of -128 stays as it was read.
    let soft = joined(rt.alloc(), &[&SOFT, &LENGTH_2, &[0x80; 132], &END])?;
    let mut header = UPGRADED;
    header[4] = 1;
    let same = joined(rt.alloc(), &[&header, &LENGTH_2, &[0x80; 132], &END])?;
    let done = (Status::Done, same.as_slice(), "end blocks 1\n");
    expect_run(rt.alloc(), "upgrade", &soft, done)
}

#[test]
fn second_headers_are_refused_at_their_byte(rt: HostRuntime) -> Result<(), Fail> {
    let line = "channel amp=40 noise=0 seed=1";
    let nothing: &[u8] = &[];
    let whole = two_transmissions(rt.alloc())?;
    let mut changed = whole.clone()?;
    if let Some(byte) = changed.get_mut(19) {
        *byte = 5;
    }
    let cases: [(&[u8], u8, u64, &str); 3] = [
        (&changed, 3, 19, "bad stream 3 at 19\n"),
        (&whole[..20.min(whole.len())], 6, 20, "bad stream 6 at 20\n"),
        (&whole[..5.min(whole.len())], 6, 5, "bad stream 6 at 5\n"),
    ];
    for (input, number, place, report) in cases {
        let refused = Status::BadStream { number, place };
        expect_run(rt.alloc(), line, input, (refused, nothing, report))?;
    }
    Ok(())
}

#[test]
fn a_one_in_an_unused_bit_is_refused_after_the_header(rt: HostRuntime) -> Result<(), Fail> {
    let mut sent = [0; 17];
    sent[16] = 1;
    let input = joined(rt.alloc(), &[&HARD, &LENGTH_2, &sent, &END])?;
    let refused = Status::BadStream {
        number: 5,
        place: 39,
    };
    let ended = (refused, SOFT.as_slice(), "bad stream 5 at 39\n");
    expect_run(rt.alloc(), "channel amp=40 noise=0 seed=1", &input, ended)
}

#[test]
fn two_transmissions_are_received(rt: HostRuntime) -> Result<(), Fail> {
    let input = two_transmissions(rt.alloc())?;
    let report =
        "block 0 delivered bytes 2 transmissions 1 iterations 1\nend blocks 1 delivered 1 failed 0\n";
    let lines = ["channel amp=40 noise=0 seed=1", "decode"];
    expect_chain(rt.alloc(), &lines, &input, (&[0, 1], report))
}

#[test]
fn bits_are_scrambled_and_scrambled_back(rt: HostRuntime) -> Result<(), Fail> {
    let encode = "encode tb=2 g=32 qm=2 rv=0";
    let scramble = "scramble rnti=0 q=0 slot=0 cell=0";
    let mut header = HARD;
    header[13] = 32;
    let once = joined(
        rt.alloc(),
        &[&header, &LENGTH_2, &[0x02, 0x1A, 0x12, 0x7A], &END],
    )?;
    expect_chain(
        rt.alloc(),
        &[encode, scramble],
        &[0, 0],
        (&once, "end blocks 1\n"),
    )?;
    let back = joined(rt.alloc(), &[&header, &LENGTH_2, &[0; 4], &END])?;
    let lines = [encode, scramble, scramble];
    expect_chain(rt.alloc(), &lines, &[0, 0], (&back, "end blocks 1\n"))
}

#[test]
fn scrambled_streams_are_decoded_in_any_number_of_windows(rt: HostRuntime) -> Result<(), Fail> {
    let scramble = "scramble rnti=65535 q=1 slot=19 cell=503";
    let channel = "channel amp=40 noise=0 seed=1";
    let large = counted(rt.alloc(), 766)?;
    let rows: [(&str, &[u8], &str); 2] = [
        (
            "encode tb=2 g=132 qm=2 rv=0",
            &[0, 0],
            "block 0 delivered bytes 2 transmissions 1 iterations 1\nend blocks 1 delivered 1 failed 0\n",
        ),
        (
            "encode tb=766 g=18840 qm=2 rv=0",
            &large,
            "block 0 delivered bytes 766 transmissions 1 iterations 2\nend blocks 1 delivered 1 failed 0\n",
        ),
    ];
    for (encode, payload, report) in rows {
        for decode in [
            "decode windows=1",
            "decode windows=8 workers=16",
            "decode windows=64",
        ] {
            let plain = [encode, channel, decode];
            expect_chain(rt.alloc(), &plain, payload, (payload, report))?;
            let scrambled = [encode, scramble, channel, scramble, decode];
            expect_chain(rt.alloc(), &scrambled, payload, (payload, report))?;
        }
    }
    Ok(())
}

#[test]
fn points_of_two_bits_are_received_as_bits_are(rt: HostRuntime) -> Result<(), Fail> {
    let encode = "encode tb=2 g=132 qm=2 rv=0";
    for payload in [[0u8, 0], [0, 1]] {
        let channel = [encode, "channel amp=40 noise=20 seed=5"];
        let points = [encode, "points amp=40 noise=20 seed=5"];
        let of_channel = chain_of(rt.alloc(), &channel, &payload)?.ok_or("some command ran")?;
        let of_points = chain_of(rt.alloc(), &points, &payload)?.ok_or("some command ran")?;
        assert_eq!(rt; of_channel.status, Status::Done);
        assert_eq!(rt; of_channel.out.bytes(), of_points.out.bytes());
    }
    Ok(())
}

#[test]
fn a_large_block_comes_back(rt: HostRuntime) -> Result<(), Fail> {
    let payload = counted(rt.alloc(), 9422)?;
    let encode = "encode tb=9422 g=82800 qm=6 rv=0 nir=77328";
    let report =
        "block 0 delivered bytes 9422 transmissions 1 iterations 13\nend blocks 1 delivered 1 failed 0\n";
    for channel in [
        "channel amp=30 noise=0 seed=1",
        "points amp=30 noise=0 seed=1",
    ] {
        let lines = [encode, channel, "decode windows=8"];
        expect_chain(rt.alloc(), &lines, &payload, (&payload, report))?;
    }
    Ok(())
}
