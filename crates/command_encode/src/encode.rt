//! The command `encode`.
ghost use Rattle.std.specs.Prelude.{◌≡◌, ◌≤◌, ◌<◌, ◌+◌, IfOk, IfErr, length};
ghost use Rattle.edge_io.specs.Edge.{TakesBytes};
ghost use Rattle.coded_stream.specs.Shown.{header_of};
ghost use Rattle.run_loop.specs.Step.{FailsBy};
ghost use Rattle.command_encode.specs.EncodeRounds.{IsAfterAllBlocks, IsEnd, IsLast, IsOfBlock};

use crate::blocks::block;
use crate::input::{Input, read_up_to};
use coded_stream::{Header, MOST_BLOCKS, cause, length_word, write_header};
use edge_io::{ReadStop, Sink, SinkFault, Source, read_exactly};
use lte_bits::NoMemory;
use run_loop::{Open, Round, SinkName, Status, Stop, Work, blocks_line};
use std::alloc::Global;

/// The hard stream of an input's blocks.
#[derive(Debug, Drop)]
pub struct Encode {
    pub header: Header,
}

/// Its rounds, of one block each.
#[derive(Debug, Drop)]
pub struct EncodeRounds {
    header: Header,
    /// How many blocks were taken.
    count: usize,
    /// How many more may come.
    more: usize,
    ghost most: { more + count ≡ 4096 },
}

/// Returns the end after `count` blocks.
fn end(alloc: Global, count: usize) -> Result<Stop, NoMemory>
    ensures { IfOk result (IsEnd count) }
{
    let closing = length_word(alloc, 0)?;
    let last = blocks_line(alloc, count)?;
    Ok(Stop::End {
        closing,
        last,
        failed: false,
    })
}

/// Returns a round of one block.
fn of_block(
    alloc: Global,
    header: &Header,
    payload: &[u8],
    wants: usize,
    stop: Stop,
) -> Result<Round, NoMemory>
    requires some { 1 ≤ length payload.now }
    requires few { length payload.now ≤ header.now.tb }
    ensures { IfOk result (λ round. IsOfBlock (header_of header.now) payload.now wants stop round) }
{
    let mut parts = Vec::new(alloc);
    parts.push(block(alloc, payload, header, wants)?)?;
    Ok(Round { parts, stop })
}

/// Returns the last round, for the bytes left after `count` blocks.
fn last(alloc: Global, header: &Header, count: usize, payload: &[u8]) -> Result<Round, NoMemory>
    requires few { length payload.now ≤ header.now.tb }
    requires count { 0 < length payload.now → count < 4096 }
    ensures { IfOk result (IsLast (header_of header.now) count payload.now) }
{
    if payload.is_empty() {
        return Ok(Round::stopped(alloc, end(alloc, count)?));
    }
    let stop = end(alloc, count + 1)?;
    of_block(alloc, header, payload, payload.len() + 1, stop)
}

/// Returns the round after the maximum number of blocks: a further byte is refused, and is read without
/// allocating.
fn after_all_blocks<S: Source>(
    alloc: Global,
    header: &Header,
    source: &mut S,
) -> Result<Round, Status>
    ensures bytes { IsAfterAllBlocks (header_of header.now) (S.left source.old) (S.left source.new) result }
    ensures moved { TakesBytes (S.left source.old) (S.left source.new) }
    ensures later { S.faults source.old ≤ S.faults source.new }
    ensures fails { IfErr result (FailsBy (S.faults source.old) (S.faults source.new)) }
{
    match read_exactly(source, &mut [0u8; 1]) {
        Ok(()) => Err(Status::BadStream {
            number: cause::TOO_MANY_BLOCKS,
            place: (MOST_BLOCKS * header.tb) as u64,
        }),
        Err(stop) => match stop {
            ReadStop::Fault => Err(Status::ReadFault),
            ReadStop::Ended { .. } => Ok(last(alloc, header, MOST_BLOCKS, &[])?),
        },
    }
}

impl Open for Encode {
    ghost use Rattle.command_encode.specs.Encode.{encode_answer};

    type Rounds = EncodeRounds;

    ghost answer = { λ s input. encode_answer (header_of s.header) input };

    fn open<S: Source, D: Sink>(
        self,
        _alloc: Global,
        _source: &mut S,
        out: &mut D,
    ) -> Result<EncodeRounds, Status> {
        let Encode { header } = self;
        if let Err(SinkFault) = write_header(out, &header) {
            return Err(Status::WriteFault {
                sink: SinkName::Out,
            });
        }
        Ok(EncodeRounds {
            header,
            count: 0,
            more: MOST_BLOCKS,
        })
    }
}

impl Work for EncodeRounds {
    ghost use Rattle.command_encode.specs.Encode.{blocks_answer};

    ghost answer = { λ s input. blocks_answer (header_of s.header) s.more s.count input };

    ghost budget = { λ s. s.more };

    fn round<S: Source>(&mut self, alloc: Global, source: &mut S) -> Result<Round, Status> {
        if self.more == 0 {
            return after_all_blocks(alloc, &self.header, source);
        }
        match read_up_to(alloc, source, self.header.tb)? {
            Input::Whole(payload) => {
                self.more -= 1;
                self.count += 1;
                let payload = payload.as_slice();
                Ok(of_block(alloc, &self.header, payload, payload.len(), Stop::Go)?)
            }
            Input::Ended(payload) => Ok(last(alloc, &self.header, self.count, payload.as_slice())?),
        }
    }
}
