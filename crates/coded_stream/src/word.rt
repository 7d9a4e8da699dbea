//! Reading a length word, and what comes after the end word.
ghost use Rattle.std.specs.Prelude.{◌≡◌, ◌≤◌, ◌<◌, ◌^◌, ℕ, List, Some, IfOk, IfErr};
ghost use Rattle.edge_io.specs.Edge.{TakesBytes};
ghost use Rattle.coded_stream.specs.Body.{end_step};
ghost use Rattle.coded_stream.specs.Shown.{header_of};
ghost use Rattle.coded_stream.specs.Takes.{TakesWord, TakesEnd};
ghost use Rattle.coded_stream.specs.Units.{IsCause};
ghost use Rattle.coded_stream.specs.Words.{IsPayload, WordSays};

use crate::cause;
use crate::header::Header;
use crate::stop::StreamStop;
use crate::unit::{read_unit, word};
use edge_io::{ReadStop, Source, read_exactly};

/// Returns the bytes of the payload whose length word this is, or none for the end word, at a place of
/// the stream where `more` blocks may come.
fn payload_of(
    header: &Header,
    more: usize,
    start: u64,
    bytes: usize,
) -> Result<Option<usize>, StreamStop>
    ensures says { WordSays (header_of header.now) more start bytes result }
    ensures payload { IfOk result (IsPayload header.now.tb more) }
{
    if bytes == 0 {
        Ok(None)
    } else if more == 0 {
        Err(StreamStop::bad(cause::TOO_MANY_BLOCKS, start))
    } else if bytes > header.tb {
        Err(StreamStop::bad(cause::BAD_BLOCK_LENGTH, start))
    } else {
        Ok(Some(bytes))
    }
}

/// Reads a length word at a place of the stream, where `more` blocks may come: the bytes of the payload
/// of the block that begins, or none for the end word.
pub fn read_word<S: Source>(
    source: &mut S,
    header: &Header,
    more: usize,
    start: u64,
) -> Result<Option<usize>, StreamStop>
    requires { start < 2 ^ 60 }
    ensures told { (input : List ℕ) → S.left source.old ≡ Some input →
        TakesWord (header_of header.now) more start input (S.left source.old) (S.left source.new) result }
    ensures payload { IfOk result (IsPayload header.now.tb more) }
    ensures moved { TakesBytes (S.left source.old) (S.left source.new) }
    ensures later { S.faults source.old ≤ S.faults source.new }
    ensures cause { IfErr result (IsCause (S.faults source.old) (S.faults source.new)) }
{
    let mut unit = [0u8; 4];
    read_unit(source, &mut unit, start)?;
    payload_of(header, more, start, word(&unit, 0) as usize)
}

/// Reads past an end word at a place of the stream: only the end of the input may follow.
pub fn read_end<S: Source>(source: &mut S, start: u64) -> Result<(), StreamStop>
    requires { start < 2 ^ 60 }
    ensures told { (input : List ℕ) → S.left source.old ≡ Some input →
        TakesEnd (end_step start input) (S.left source.old) (S.left source.new) result }
    ensures moved { TakesBytes (S.left source.old) (S.left source.new) }
    ensures later { S.faults source.old ≤ S.faults source.new }
    ensures cause { IfErr result (IsCause (S.faults source.old) (S.faults source.new)) }
{
    let mut unit = [0u8; 1];
    match read_exactly(source, &mut unit) {
        Ok(()) => Err(StreamStop::bad(cause::TRAILING, start + 4)),
        Err(ReadStop::Ended { .. }) => Ok(()),
        Err(ReadStop::Fault) => Err(StreamStop::Fault),
    }
}
