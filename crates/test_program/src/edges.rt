//! Reads and writes in small pieces, with failures in mid-stream.
ghost use Rattle.std.specs.Prelude.{◌≤◌};

use edge_io::{
    MemSource, ReadStop, Sink, SinkFault, Source, SourceFault, StdSink, StdSource, SteadySource,
    read_exactly, write_all,
};
use std::io;
use std::io::{Read, Write};
use std::process::Abort;
use std::test::Fail;
use test_runs::{list_of, sink_of};

/// Reads ten bytes, four at a time, of which the call of number 2 fails. A step is what a read
/// answers, and how many bytes are left after it.
fn assert_reads(
    rt: &(impl Abort + AllocGlobal),
    piece: usize,
    steps: &[(Result<(), ReadStop>, usize)],
) -> Result<(), Fail>
    requires { 1 ≤ piece }
{
    let bytes = list_of(rt.alloc(), &[1, 2, 3, 4, 5, 6, 7, 8, 9, 10])?;
    let mut source = MemSource::new(bytes, piece, list_of(rt.alloc(), &[2])?);
    for (want, left) in steps {
        assert_eq!(rt; read_exactly(&mut source, &mut [0; 4]), *want);
        assert_eq!(rt; source.left().len(), *left);
    }
    Ok(())
}

#[test]
fn reads_go_on_after_the_failed_call(rt: HostRuntime) -> Result<(), Fail> {
    let fault = Err(ReadStop::Fault);
    let end = |got| Err(ReadStop::Ended { got });
    assert_reads(&rt, 1, &[(fault, 8), (Ok(()), 4), (Ok(()), 0), (end(0), 0)])?;
    assert_reads(&rt, 7, &[(Ok(()), 6), (Ok(()), 2), (fault, 2), (end(2), 0)])
}

/// Writes texts where there is room for nine bytes and the call of number 1 fails. A step is a
/// text, what its write answers, and what is held after it.
fn assert_writes(
    rt: &(impl Abort + AllocGlobal),
    piece: usize,
    steps: &[(&str, Result<(), SinkFault>, &str)],
) -> Result<(), Fail>
    requires { 1 ≤ piece }
{
    let mut sink = sink_of(rt.alloc(), 9, piece, &[1])?;
    for (text, want, held) in steps {
        assert_eq!(rt; write_all(&mut sink, text.as_bytes()), *want);
        assert_eq!(rt; sink.bytes(), held.as_bytes());
    }
    Ok(())
}

#[test]
fn writes_go_on_after_the_failed_call_until_no_room_is_left(rt: HostRuntime) -> Result<(), Fail> {
    let fault = Err(SinkFault);
    assert_writes(
        &rt,
        1,
        &[
            ("abcde", fault, "a"),
            ("fghij", Ok(()), "afghij"),
            ("kl", Ok(()), "afghijkl"),
            ("mnopq", fault, "afghijklm"),
            ("", Ok(()), "afghijklm"),
        ],
    )?;
    assert_writes(
        &rt,
        7,
        &[
            ("abcde", Ok(()), "abcde"),
            ("fghij", fault, "abcde"),
            ("kl", Ok(()), "abcdekl"),
            ("mnopq", fault, "abcdeklmn"),
            ("", Ok(()), "abcdeklmn"),
        ],
    )
}

#[test]
fn a_steady_source_gives_all_and_ends(rt: HostRuntime) -> Result<(), Fail> {
    let mut source = SteadySource::new(list_of(rt.alloc(), &[1, 2, 3])?);
    let mut buf = [0; 2];
    assert_eq!(rt; read_exactly(&mut source, &mut buf), Ok(()));
    assert_eq!(rt; buf, [1, 2]);
    assert_eq!(rt;
        read_exactly(&mut source, &mut buf),
        Err(ReadStop::Ended { got: 1 })
    );
    Ok(())
}

#[test]
fn a_reader_and_a_writer_of_std_pass_bytes_on(rt: HostRuntime) -> Result<(), Fail> {
    let mut source = StdSource::new(b"abc".as_slice());
    let mut buf = [0; 2];
    assert_eq!(rt; read_exactly(&mut source, &mut buf), Ok(()));
    assert_eq!(rt; buf, *b"ab");
    assert_eq!(rt;
        read_exactly(&mut source, &mut buf),
        Err(ReadStop::Ended { got: 1 })
    );

    let mut held = Vec::new(rt.alloc());
    assert_eq!(rt; write_all(&mut StdSink::new(&mut held), b"abc"), Ok(()));
    assert_eq!(rt; held.as_slice(), b"abc".as_slice());
    Ok(())
}

/// A reader of its calls' numbers, and a writer of one byte at a time, whose second read or
/// flush fails.
#[derive(Drop)]
struct Flaky {
    calls: u8,
}

impl Flaky {
    fn call(&mut self) -> io::Result<u8> {
        self.calls = self.calls.saturating_add(1);
        if self.calls == 2 {
            return Err(io::Error::from(io::ErrorKind::Other));
        }
        Ok(self.calls)
    }
}

impl Read for Flaky {
    fn read(&mut self, buf: &mut [u8]) -> io::Result<usize> {
        let call = self.call()?;
        match buf {
            [] => Ok(0),
            [first, ..] => {
                *first = call;
                Ok(1)
            }
        }
    }
}

impl Write for Flaky {
    fn write(&mut self, buf: &[u8]) -> io::Result<usize> {
        Ok(buf.len().min(1))
    }

    fn flush(&mut self) -> io::Result<()> {
        self.call()?;
        Ok(())
    }
}

#[test]
fn a_failed_read_or_flush_of_std_is_a_fault_of_that_call(rt: HostRuntime) {
    let mut source = StdSource::new(Flaky { calls: 0 });
    for want in [Ok(1), Err(SourceFault), Ok(1)] {
        assert_eq!(rt; source.read(&mut [0; 4]), want);
    }
    let mut sink = StdSink::new(Flaky { calls: 0 });
    for want in [Ok(1), Err(SinkFault), Ok(1)] {
        assert_eq!(rt; sink.write(b"ab"), want);
    }
}

#[test]
fn stops_are_named_in_words(rt: HostRuntime) -> Result<(), Fail> {
    let ended = ReadStop::Ended { got: 3 };
    let text = format!(in rt.alloc(); "{ended}; {}; {SinkFault}", ReadStop::Fault)?;
    assert_eq!(rt;
        text.as_str(),
        "the source ended after 3 bytes; the source failed; the sink failed"
    );
    Ok(())
}
