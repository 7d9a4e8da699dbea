//! The rounds of a command over a stream whose header was read.
ghost use Rattle.std.specs.Prelude.{◌≡◌, ◌≤◌, ◌<◌, ◌+◌, ◌-◌, true, IfOk};
ghost use Rattle.coded_stream.specs.Header.{kind_code};
ghost use Rattle.coded_stream.specs.Blocks.{IsBlock};
ghost use Rattle.coded_stream.specs.Opening.{is_wanted};
ghost use Rattle.coded_stream.specs.Shown.{header_of};
ghost use Rattle.stream_loop.specs.Handling.{closing_text, one_if};
ghost use Rattle.stream_loop.specs.Rounds.{block_of, status_of, IsEnding, IsAlone, IsGoing};

use crate::handler::{Handled, Handler};
use coded_stream::{Header, StreamReader, StreamStop, length_word};
use edge_io::Source;
use lte_bits::{List, NoMemory};
use run_loop::{Part, Round, Status, Stop, Work};
use std::alloc::Global;

/// A command, the reader of its stream, the room of a block's transmissions, and how many blocks
/// failed.
#[derive(Drop)]
pub struct StreamRounds<H: Handler> {
    pub handler: H,
    pub reader: StreamReader,
    pub room: List<u8>,
    pub failed: usize,
}

/// Returns the status of a run whose reader stops.
pub fn status_of(stop: StreamStop) -> Status
    ensures { result ≡ status_of stop }
{
    match stop {
        StreamStop::Bad { number, place } => Status::BadStream { number, place },
        StreamStop::Fault => Status::ReadFault,
        StreamStop::NoMemory => Status::NoMemory,
    }
}

/// Returns the closing text of `out`.
fn closing<H: Handler>(alloc: Global, handler: &H, header: &Header) -> Result<Vec<u8>, NoMemory>
    ensures { IfOk result (λ text. text.items
        ≡ closing_text ((H.handling handler.now).header (header_of header.now))) }
{
    match handler.header(header) {
        Some(_) => Ok(length_word(alloc, 0)?),
        None => Ok(Vec::new(alloc)),
    }
}

/// Returns the end after `blocks` blocks, of which `failed` failed.
fn ending<H: Handler>(
    alloc: Global,
    handler: &H,
    header: &Header,
    blocks: usize,
    failed: usize,
) -> Result<Stop, NoMemory>
    requires few { blocks ≤ 4096 }
    requires failed { failed ≤ blocks }
    ensures { IfOk result (IsEnding (H.handling handler.now) (header_of header.now) blocks failed) }
{
    let closing = closing(alloc, handler, header)?;
    let last = handler.last(alloc, blocks, failed)?;
    Ok(Stop::End {
        closing,
        last,
        failed: failed > 0,
    })
}

/// Returns the round of a handled block of `size` bytes.
fn of_handled(alloc: Global, handled: Handled, size: usize) -> Result<Round, NoMemory>
    ensures { IfOk result (IsAlone (record {
      text = handled.text.items;
      line = handled.line.items;
      size = size;
      wants = size;
    })) }
{
    let Handled { text, line, .. } = handled;
    let mut parts = Vec::new(alloc);
    parts.push(Part {
        text,
        line,
        size,
        wants: size,
    })?;
    Ok(Round {
        parts,
        stop: Stop::Go,
    })
}

/// Returns the round of a block that was read, and whether the block failed.
fn going<H: Handler>(
    alloc: Global,
    handler: &H,
    header: &Header,
    number: usize,
    payload: usize,
    bytes: &[u8],
) -> Result<(Round, bool), NoMemory>
    requires able { H.able handler.now }
    requires wanted { is_wanted (H.handling handler.now).want (kind_code header.now.kind) ≡ true }
    requires few { number < 4096 }
    requires accepted { IsBlock (header_of header.now) (block_of payload bytes.now) }
    ensures { let b = block_of payload bytes.now in
        IfOk result (λ made. IsGoing ((H.handling handler.now).block (header_of header.now) number b)
        b made.0 made.1) }
{
    let handled = handler.block(alloc, header, number, payload, bytes)?;
    let failed = handled.failed;
    let round = of_handled(alloc, handled, 4 + bytes.len())?;
    Ok((round, failed))
}

/// Returns the number of failed blocks after one more.
fn counted(before: usize, failed: bool) -> usize
    requires { before < 4096 }
    ensures { result ≡ before + one_if failed }
{
    if failed { before + 1 } else { before }
}

impl<H: Handler> Work for StreamRounds<H> {
    ghost use Rattle.coded_stream.specs.Stream.{most_blocks};
    ghost use Rattle.stream_loop.specs.Rounds.{answer_ahead, IsReady};

    ghost answer = { λ s input. answer_ahead (H.handling s.handler) s.reader s.failed input };

    ghost ready = { λ s. H.able s.handler × IsReady (H.handling s.handler) s.reader s.failed };

    ghost budget = { λ s. most_blocks - s.reader.blocks };

    fn round<S: Source>(&mut self, alloc: Global, source: &mut S) -> Result<Round, Status> {
        let number = self.reader.blocks();
        // Allocates for the ending before reading it.
        let end = ending(
            alloc,
            &self.handler,
            self.reader.header(),
            number,
            self.failed,
        )?;
        let next = self.reader.next_block(source, &mut self.room);
        let Some(payload) = next.map_err(status_of)? else {
            return Ok(Round::stopped(alloc, end));
        };
        let header = self.reader.header();
        let bytes = self.room.as_slice();
        let (round, failed) = going(alloc, &self.handler, header, number, payload, bytes)?;
        self.failed = counted(self.failed, failed);
        Ok(round)
    }
}
