//! Runs of `encode` over memory, against worked streams.
use crate::codeword_runs::{BYTE_01, BYTES_00_01};
use std::test::Fail;
use test_runs::{END, HARD, LENGTH_2, TWO, expect_run, joined, run_of, sound};
use turbo_run::Status;

/// Returns the header of one transmission of G bits, with Q_m = 2, and payloads of at most 2 bytes.
fn header(g: u8, rv: u8) -> [u8; 19] {
    let mut header = HARD;
    header[13] = g;
    header[18] = rv;
    header
}

#[test]
fn streams_of_one_transmission(rt: HostRuntime) -> Result<(), Fail> {
    let written: [u8; 23] = [
        0x4C, 0x54, 0x43, 0x31, 0x00, 0x02, 0x01, 0x01, 0x00, 0x02, 0x00, 0x00, 0x00, 0x84, 0x00,
        0x00, 0x00, 0x00, 0x00, 0x00, 0x00, 0x00, 0x00,
    ];
    let empty = (Status::Done, written.as_slice(), "end blocks 0\n");
    expect_run(rt.alloc(), "encode tb=2 g=132 qm=2 rv=0", &[], empty)?;
    let rows: [(u8, u8, &[u8], &[&[u8]], &str); 6] = [
        (132, 0, &[0, 0], &[&LENGTH_2, &[0; 17]], "end blocks 1\n"),
        (132, 1, &[0, 0], &[&LENGTH_2, &[0; 17]], "end blocks 1\n"),
        (132, 2, &[0, 0], &[&LENGTH_2, &[0; 17]], "end blocks 1\n"),
        (132, 3, &[0, 0], &[&LENGTH_2, &[0; 17]], "end blocks 1\n"),
        (
            132,
            0,
            &[0, 1, 0, 1],
            &[&LENGTH_2, &BYTES_00_01, &LENGTH_2, &BYTES_00_01],
            "end blocks 2\n",
        ),
        (
            116,
            0,
            &[0, 0, 1],
            &[&LENGTH_2, &[0; 15], &[0, 0, 0, 1], &BYTE_01],
            "end blocks 2\n",
        ),
    ];
    for (g, rv, input, blocks, report) in rows {
        let line = format!(in rt.alloc(); "encode tb=2 g={g} qm=2 rv={rv}")?;
        let blocks = joined(rt.alloc(), blocks)?;
        let out = joined(rt.alloc(), &[&header(g, rv), &blocks, &END])?;
        let done = (Status::Done, out.as_slice(), report);
        expect_run(rt.alloc(), line.as_str(), input, done)?;
    }
    Ok(())
}

#[test]
fn transmissions_of_their_own_lengths_are_of_version_two(rt: HostRuntime) -> Result<(), Fail> {
    let line = "encode tb=2 g=132,8 qm=2,4 rv=0,2";
    let out = joined(rt.alloc(), &[&TWO, &LENGTH_2, &BYTES_00_01, &[0xE6], &END])?;
    assert_eq!(rt; out.len(), 52);
    let done = (Status::Done, out.as_slice(), "end blocks 1\n");
    expect_run(rt.alloc(), line, &[0, 1], done)
}

#[test]
fn blocks_up_to_4096_are_taken(rt: HostRuntime) -> Result<(), Fail> {
    let line = "encode tb=1 g=2 qm=2 rv=0";
    let most = vec![in rt.alloc(); 0u8; 4096]?;
    let ran = run_of(rt.alloc(), line, &most, sound(4096))?;
    assert_eq!(rt; ran.status, Status::Done);
    assert_eq!(rt; ran.out.bytes().len(), 20_503);
    assert_eq!(rt; ran.report.bytes(), b"end blocks 4096\n".as_slice());
    let more = vec![in rt.alloc(); 0u8; 4097]?;
    let ran = run_of(rt.alloc(), line, &more, sound(4096))?;
    let refused = Status::BadStream {
        number: 8,
        place: 4096,
    };
    assert_eq!(rt; ran.status, refused);
    assert_eq!(rt; ran.out.bytes().len(), 20_499);
    assert_eq!(rt; ran.report.bytes(), b"bad stream 8 at 4096\n".as_slice());
    Ok(())
}

/// Returns a check sum of bytes in order.
fn check_sum(bytes: &[u8]) -> u64 {
    let mut sum = 0u64;
    for byte in bytes {
        sum = (sum % 65_521)
            .saturating_mul(31)
            .saturating_add(u64::from(*byte))
            % 65_521;
    }
    sum
}

#[test]
fn a_large_block_over_a_limited_buffer_is_that_of_an_independent_encoder(
    rt: HostRuntime,
) -> Result<(), Fail> {
    let mut input = Vec::new(rt.alloc());
    for i in 0..9422u32 {
        input.push((i.saturating_mul(i) % 251) as u8)?;
    }
    let line = "encode tb=9422 g=82800 qm=6 rv=0 nir=77328";
    let ran = run_of(rt.alloc(), line, &input, sound(4096))?;
    assert_eq!(rt; ran.status, Status::Done);
    let out = ran.out.bytes();
    assert_eq!(rt; out.len(), 10_377);
    let header: [u8; 19] = [
        0x4C, 0x54, 0x43, 0x31, 0, 6, 1, 1, 0x24, 0xCE, 0, 1, 0x43, 0x70, 0, 1, 0x2E, 0x10, 0,
    ];
    assert_eq!(rt; &out[..19.min(out.len())], header.as_slice());
    assert_eq!(rt; check_sum(out), 45_561);
    Ok(())
}
