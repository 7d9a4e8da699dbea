//! Streams of both versions, and what reading one gives.
ghost use Rattle.std.specs.Prelude.{◌≤◌};

use coded_stream::{StreamReader, StreamStop, Want};
use edge_io::MemSource;
use std::alloc::{AllocError, Global};
use std::process::Abort;
use std::test::Fail;
use test_runs::{END, HARD, LENGTH_2, SOFT, TWO, list_of};

/// The codewords of these transmissions for the payload 00 01.
const SENT: [u8; 18] = [
    0x34, 0x94, 0x86, 0x1B, 0x12, 0x04, 0x70, 0xC3, 0x79, 0x90, 0x10, 0x15, 0x04, 0x2D, 0x49, 0x88,
    0x90, 0xE6,
];

/// A stream of one block of two bytes.
#[derive(Clone, Copy, Debug)]
pub enum Stream {
    /// Version One, of soft values: 159 bytes.
    Soft,
    /// The same of hard bits: 44 bytes.
    Hard,
    /// Version Two: 52 bytes.
    Two,
}

pub fn bytes_of(alloc: Global, stream: Stream) -> Result<Vec<u8>, AllocError> {
    let mut bytes = match stream {
        Stream::Soft => Vec::from_slice(alloc, &SOFT)?,
        Stream::Hard => Vec::from_slice(alloc, &HARD)?,
        Stream::Two => Vec::from_slice(alloc, &TWO)?,
    };
    bytes.extend_from_slice(&LENGTH_2)?;
    match stream {
        Stream::Soft => bytes.extend_from_slice(&[0; 132])?,
        Stream::Hard => bytes.extend_from_slice(&SENT[..17])?,
        Stream::Two => bytes.extend_from_slice(&SENT)?,
    }
    bytes.extend_from_slice(&END)?;
    Ok(bytes)
}

/// What reading a stream gave: its blocks, why it wasn't read to its end, and the bytes that are
/// left of the input.
#[derive(Clone, Copy, Debug, PartialEq, Eq)]
pub struct Outcome {
    pub blocks: usize,
    pub stop: Option<StreamStop>,
    pub left: usize,
}

pub fn read(
    alloc: Global,
    input: &[u8],
    want: Want,
    piece: usize,
    failing: &[u64],
) -> Result<Outcome, AllocError>
    requires { 1 ≤ piece }
{
    let mut source = MemSource::new(list_of(alloc, input)?, piece, list_of(alloc, failing)?);
    let mut reader = match StreamReader::begin(&mut source, want) {
        Ok(reader) => reader,
        Err(stop) => {
            return Ok(Outcome {
                blocks: 0,
                stop: Some(stop),
                left: source.left().len(),
            });
        }
    };
    let mut into = list_of(alloc, &[])?;
    let mut stop = None;
    for _ in 0..5000u32 {
        if !reader.is_live() {
            break;
        }
        match reader.next_block(&mut source, &mut into) {
            Ok(_) => {}
            Err(cause) => stop = Some(cause),
        }
    }
    Ok(Outcome {
        blocks: reader.blocks(),
        stop,
        left: source.left().len(),
    })
}

/// The outcome in pieces of 1 and 7 bytes.
pub fn assert_reads(
    rt: &(impl Abort + AllocGlobal),
    input: &[u8],
    want: Want,
    outcome: (usize, Option<StreamStop>, usize),
) -> Result<(), Fail> {
    let (blocks, stop, left) = outcome;
    for piece in [1, 7] {
        let got = read(rt.alloc(), input, want, piece, &[])?;
        assert_eq!(rt; got, Outcome { blocks, stop, left });
    }
    Ok(())
}

pub fn bad(number: u8, place: u64) -> Option<StreamStop> {
    Some(StreamStop::Bad { number, place })
}
