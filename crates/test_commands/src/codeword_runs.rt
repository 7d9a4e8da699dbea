//! Runs of `codeword` over memory, against worked codewords.
use edge_io::{MemSink, SteadySource};
use std::test::Fail;
use test_runs::{expect_run, list_of, words_of};
use turbo_run::{Status, run};

pub const BYTES_00_01: [u8; 17] = [
    0x34, 0x94, 0x86, 0x1B, 0x12, 0x04, 0x70, 0xC3, 0x79, 0x90, 0x10, 0x15, 0x04, 0x2D, 0x49, 0x88,
    0x90,
];

pub const BYTE_01: [u8; 15] = [
    0x72, 0x68, 0x66, 0xCA, 0x04, 0xE3, 0x0D, 0xEC, 0x81, 0x01, 0xA1, 0x0B, 0x54, 0xC8, 0x90,
];

fn refused(place: u64) -> Status {
    Status::BadStream { number: 4, place }
}

#[test]
fn codewords_are_written_whole(rt: HostRuntime) -> Result<(), Fail> {
    let rows: [(&str, &[u8], &[u8], &str); 6] = [
        (
            "codeword g=132 qm=2 rv=0",
            &[0, 1],
            &BYTES_00_01,
            "end bits 132\n",
        ),
        ("codeword g=8 qm=2 rv=1", &[0, 1], &[0x24], "end bits 8\n"),
        ("codeword g=8 qm=2 rv=2", &[0, 1], &[0xE6], "end bits 8\n"),
        ("codeword g=8 qm=2 rv=3", &[0, 1], &[0x10], "end bits 8\n"),
        ("codeword g=116 qm=2 rv=0", &[1], &BYTE_01, "end bits 116\n"),
        ("codeword g=2 qm=2 rv=0", &[0; 766], &[0], "end bits 2\n"),
    ];
    for (line, input, out, report) in rows {
        expect_run(rt.alloc(), line, input, (Status::Done, out, report))?;
    }
    Ok(())
}

#[test]
fn lengths_up_to_18722_are_taken(rt: HostRuntime) -> Result<(), Fail> {
    let line = "codeword g=2 qm=2 rv=0";
    let none = (refused(0), [].as_slice(), "bad stream 4 at 0\n");
    expect_run(rt.alloc(), line, &[], none)?;
    expect_run(rt.alloc(), "codeword g=132 qm=2 rv=0", &[], none)?;
    let most = vec![in rt.alloc(); 0u8; 18_722]?;
    expect_run(
        rt.alloc(),
        line,
        &most,
        (Status::Done, &[0], "end bits 2\n"),
    )?;
    let more = vec![in rt.alloc(); 0u8; 18_724]?;
    let long = "bad stream 4 at 18722\n";
    expect_run(rt.alloc(), line, &more, (refused(18_722), &[], long))
}

#[test]
fn refused_words_read_and_write_nothing(rt: HostRuntime) -> Result<(), Fail> {
    let rows = [
        ("", 1, 0),
        ("fly", 2, 0),
        ("encode x=1", 3, 1),
        ("encode tb=2 tb=3", 4, 2),
        ("encode tb=2 qm=2 rv=0", 5, 4),
        ("encode tb=02", 6, 1),
        ("encode tb=2 g=132 qm=2 rv=4", 7, 4),
        ("encode tb=2 g=133 qm=2 rv=0", 7, 2),
        ("encode tb=18723", 7, 1),
        ("encode tb=766 g=132 qm=2 rv=0 nir=6176", 8, 5),
    ];
    for (line, number, place) in rows {
        let report = format!(in rt.alloc(); "bad words {number} at {place}\n")?;
        let status = Status::BadWords { number, place };
        expect_run(rt.alloc(), line, &[1], (status, &[], report.as_str()))?;
    }
    Ok(())
}

#[test]
fn a_run_with_ample_memory_is_not_out_of_memory(rt: HostRuntime) -> Result<(), Fail> {
    let words = words_of(rt.alloc(), "codeword g=132 qm=2 rv=0")?;
    let mut source = SteadySource::new(list_of(rt.alloc(), &[0x00, 0x01])?);
    let mut out = MemSink::new(rt.alloc(), 100, list_of(rt.alloc(), &[])?);
    let mut report = MemSink::new(rt.alloc(), 100, list_of(rt.alloc(), &[])?);
    out.reserve(100)?;
    report.reserve(100)?;
    let status = run(&rt, rt.alloc(), &words, &mut source, &mut out, &mut report);
    assert_eq!(rt; status, Status::Done);
    assert_eq!(rt; out.bytes(), BYTES_00_01.as_slice());
    Ok(())
}
