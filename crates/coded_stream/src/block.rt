//! Reading a block, or the end of a stream.
ghost use Rattle.std.specs.Prelude.{◌≡◌, ◌≤◌, ◌<◌, ◌^◌, ℕ, List, Some, length, IfOk, IfErr};
ghost use Rattle.edge_io.specs.Edge.{TakesBytes};
ghost use Rattle.coded_stream.specs.Blocks.{block_size, lengths};
ghost use Rattle.coded_stream.specs.Body.{step};
ghost use Rattle.coded_stream.specs.Shown.{header_of};
ghost use Rattle.coded_stream.specs.Takes.{TakesStep, IsAccepted};
ghost use Rattle.coded_stream.specs.Units.{IsCause};

use crate::header::Header;
use crate::stop::StreamStop;
use crate::transmissions::read_transmissions;
use crate::word::{read_end, read_word};
use edge_io::Source;

/// Reads the block that begins at a place of the stream, where `more` may come: the bytes of its payload,
/// or none where the stream ends.
pub fn read_block<S: Source>(
    source: &mut S,
    header: &Header,
    more: usize,
    start: u64,
    into: &mut [u8],
) -> Result<Option<usize>, StreamStop>
    requires place { start < 2 ^ 60 }
    requires size { length into.old ≡ block_size header.now.kind (lengths (header_of header.now)) }
    ensures told { (input : List ℕ) → S.left source.old ≡ Some input →
        TakesStep (step (header_of header.now) more start input) into.new
        (S.left source.old) (S.left source.new) result }
    ensures accepted { IfOk result (IsAccepted (header_of header.now) more into.new) }
    ensures moved { TakesBytes (S.left source.old) (S.left source.new) }
    ensures later { S.faults source.old ≤ S.faults source.new }
    ensures cause { IfErr result (IsCause (S.faults source.old) (S.faults source.new)) }
{
    let Some(payload) = read_word(source, header, more, start)? else {
        read_end(source, start)?;
        return Ok(None);
    };
    read_transmissions(source, header, start, into)?;
    Ok(Some(payload))
}
