//! Headers are written as they are read, and why a stream stops is told in words.
use coded_stream::{StreamReader, StreamStop, Version, Want, write_header, write_length};
use edge_io::{MemSource, SinkFault};
use std::process::Abort;
use std::test::Fail;
use test_runs::{SOFT, TWO, list_of, sink_of};

/// Reads a header and writes it, where there is room for `room` bytes: what the writing answers,
/// and what is held.
fn assert_writes(
    rt: &(impl Abort + AllocGlobal),
    header: &[u8],
    room: usize,
    version: Version,
    want: Result<(), SinkFault>,
) -> Result<(), Fail> {
    let mut source = MemSource::new(list_of(rt.alloc(), header)?, 7, list_of(rt.alloc(), &[])?);
    let reader = StreamReader::begin(&mut source, Want::Any).expect(rt, "a header");
    assert_eq!(rt; reader.header().version, version);
    assert_eq!(rt; reader.place(), header.len() as u64);
    let mut sink = sink_of(rt.alloc(), room, 7, &[])?;
    assert_eq!(rt; write_header(&mut sink, reader.header()), want);
    assert_eq!(rt; sink.bytes(), &header[..room.min(header.len())]);
    Ok(())
}

#[test]
fn a_header_is_written_and_read(rt: HostRuntime) -> Result<(), Fail> {
    for room in 0..19 {
        assert_writes(&rt, &SOFT, room, Version::One, Err(SinkFault))?;
    }
    assert_writes(&rt, &SOFT, 19, Version::One, Ok(()))?;
    for room in 0..26 {
        assert_writes(&rt, &TWO, room, Version::Two, Err(SinkFault))?;
    }
    assert_writes(&rt, &TWO, 26, Version::Two, Ok(()))?;
    let mut sink = sink_of(rt.alloc(), 4, 7, &[])?;
    write_length(&mut sink, 0x0102_0304).expect(&rt, "a word");
    assert_eq!(rt; sink.bytes(), [1, 2, 3, 4].as_slice());
    Ok(())
}

#[test]
fn stops_are_named_in_words(rt: HostRuntime) -> Result<(), Fail> {
    let bad = StreamStop::Bad {
        number: 5,
        place: 39,
    };
    let text = format!(in rt.alloc(); "{bad}; {}; {}", StreamStop::Fault, StreamStop::NoMemory)?;
    assert_eq!(rt;
        text.as_str(),
        "the stream is refused at byte 39, cause 5; the source failed; no memory"
    );
    Ok(())
}
