//! Runs of the program's `batch` with several pipes.
use edge_io::{MemSink, MemSource};
use lte_bits::List;
use std::alloc::{AllocError, Global};
use std::process::Abort;
use std::sync::Wait;
use std::test::Fail;
use std::thread::Threads;
use turbo_run::{Status, run};

/// How a run ended, and what `out` and the report hold.
#[derive(Drop)]
struct Ran {
    status: Status,
    out: MemSink,
    report: MemSink,
}

fn sink_of(alloc: Global, room: usize) -> Result<MemSink, AllocError> {
    let mut sink = MemSink::new(alloc, 4096, List::from_vec(Vec::new(alloc)));
    match sink.reserve(room) {
        Ok(()) => Ok(sink),
        Err(_) => Err(AllocError),
    }
}

/// Does what the words of a line ask for.
fn run_of<H: Threads + Wait + Sync>(
    rt: &H,
    alloc: Global,
    line: &str,
    input: &[u8],
) -> Result<Ran, AllocError> {
    let mut words = Vec::new(alloc);
    for word in line.split_whitespace() {
        words.push(word)?;
    }
    let bytes = List::from_vec(Vec::from_slice(alloc, input)?);
    let mut source = MemSource::new(bytes, 4096, List::from_vec(Vec::new(alloc)));
    let mut out = sink_of(alloc, 400_000)?;
    let mut report = sink_of(alloc, 400_000)?;
    let status = run(rt, alloc, &words, &mut source, &mut out, &mut report);
    Ok(Ran {
        status,
        out,
        report,
    })
}

/// Returns the soft stream that is received of blocks of `tb` bytes of an input.
fn received<H: Threads + Wait + Sync + AllocGlobal>(
    rt: &H,
    encode: &str,
    channel: &str,
    input: &[u8],
) -> Result<Ran, AllocError> {
    let coded = run_of(rt, rt.alloc(), encode, input)?;
    run_of(rt, rt.alloc(), channel, coded.out.bytes())
}

const PIPES: [&str; 3] = ["batch pipes=1", "batch", "batch pipes=8"];

#[test]
fn five_blocks_are_delivered_in_their_order(rt: HostRuntime) -> Result<(), Fail> {
    let input = [0u8, 1, 0, 1, 0, 1, 0, 1, 0, 1];
    let encode = "encode tb=2 g=132 qm=2 rv=0";
    let soft = received(&rt, encode, "channel amp=40 noise=0 seed=1", &input)?;
    let mut report = Vec::new(rt.alloc());
    for n in 0..5u8 {
        let line = format!(in rt.alloc();
            "block {n} delivered bytes 2 transmissions 1 iterations 1\n"
        )?;
        report.extend_from_slice(line.as_bytes())?;
    }
    report.extend_from_slice(b"end blocks 5 delivered 5 failed 0\n")?;
    for line in PIPES {
        let ran = run_of(&rt, rt.alloc(), line, soft.out.bytes())?;
        assert_eq!(rt; ran.status, Status::Done, "of {line}");
        assert_eq!(rt; ran.out.bytes(), input.as_slice());
        assert_eq!(rt; ran.report.bytes(), report.as_slice());
    }
    Ok(())
}

/// Each number of pipes writes what `decode` does, of a stream and of its first bytes.
fn assert_as_decode<H: Threads + Wait + Sync + Abort + AllocGlobal>(
    rt: &H,
    want: Status,
    stream: &[u8],
) -> Result<(), Fail> {
    let decoded = run_of(rt, rt.alloc(), "decode", stream)?;
    assert_eq!(rt; decoded.status, want);
    for line in PIPES {
        let ran = run_of(rt, rt.alloc(), line, stream)?;
        assert_eq!(rt; ran.status, want, "of {line}");
        assert_eq!(rt; ran.out.bytes(), decoded.out.bytes());
        assert_eq!(rt; ran.report.bytes(), decoded.report.bytes());
    }
    Ok(())
}

#[test]
fn a_hundred_blocks_of_which_some_fail_are_written_as_by_decode(
    rt: HostRuntime,
) -> Result<(), Fail> {
    let mut input = Vec::new(rt.alloc());
    for i in 0..2000u16 {
        input.push((i / 7 % 256) as u8)?;
    }
    let encode = "encode tb=20 g=300 qm=2 rv=0";
    let soft = received(&rt, encode, "channel amp=30 noise=55 seed=3", &input)?;
    let stream = soft.out.bytes();
    assert_as_decode(&rt, Status::SomeFailed, stream)?;
    // Cut within block 50, of 4 + 300 bytes, after a header of 19.
    let cut = 19 + 50 * 304 + 100;
    let refused = Status::BadStream {
        number: 6,
        place: cut as u64,
    };
    assert_as_decode(&rt, refused, &stream[..cut.min(stream.len())])
}

#[test]
fn a_stream_of_4096_blocks_is_read_whole(rt: HostRuntime) -> Result<(), Fail> {
    // Values that say nothing deliver zeros.
    let mut stream = Vec::from_slice(
        rt.alloc(),
        &[
            0x4C, 0x54, 0x43, 0x31, 1, 2, 1, 1, 0, 1, 0, 0, 0, 8, 0, 0, 0, 0, 0,
        ],
    )?;
    for _ in 0..4096 {
        stream.extend_from_slice(&[0, 0, 0, 1, 0, 0, 0, 0, 0, 0, 0, 0])?;
    }
    stream.extend_from_slice(&[0; 4])?;
    assert_as_decode(&rt, Status::Done, &stream)
}
