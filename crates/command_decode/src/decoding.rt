//! Decoding of one block.
ghost use Rattle.std.specs.Prelude.{◌≡◌, ◌≤◌, ◌<◌, true, IfOk};
ghost use Rattle.coded_stream.specs.Blocks.{IsBlock};
ghost use Rattle.coded_stream.specs.Shown.{header_of};
ghost use Rattle.coded_stream.specs.declared.kind.Kind.TheVariants as kind;
ghost use Rattle.stream_loop.specs.Rounds.{block_of, handled_of};
ghost use Rattle.command_decode.specs.Decoding.{decoded, handled};
ghost use Rattle.command_decode.specs.Receivers.{GivesOutcomes, TakesTransmissions};

use crate::lines::{block_line, last_line};
use block_receive::{DecoderLimits, Task};
use coded_stream::{Header, Want};
use lte_bits::{NoMemory, Soft};
use model_receiver::TbOutcome;
use rate_match::Sends;
use segmentation::plan;
use std::alloc::Global;
use stream_loop::{Handled, Handler, softs_of};

/// The outcome of receiving a transport block, or running out of memory.
pub type Received = Result<TbOutcome, NoMemory>;

/// The receiver of transport blocks, its workers, 1 to 16, and its limits.
#[derive(Drop)]
pub struct Decoding<'a, F: Fn(Global, &Task, usize, &Sends, &[Soft]) -> Received> {
    pub receive: &'a F,
    pub workers: usize,
    pub limits: &'a DecoderLimits,
    pub ghost some_workers: { 1 ≤ workers },
    pub ghost few_workers: { workers ≤ 16 },
}

impl<'a, F: Fn(Global, &Task, usize, &Sends, &[Soft]) -> Received> Decoding<'a, F> {
    /// Decodes a transport block from its transmissions.
    fn outcome(
        &self,
        alloc: Global,
        header: &Header,
        payload: usize,
        bytes: &[u8],
    ) -> Result<TbOutcome, NoMemory>
        requires takes { TakesTransmissions (F.pre self.now.receive.now) }
        requires gives { GivesOutcomes (F.post self.now.receive.now) }
        requires soft { header.now.kind ≡ kind.Soft }
        requires accepted { IsBlock (header_of header.now) (block_of payload bytes.now) }
        ensures { IfOk result (λ o. o ≡ decoded self.now.limits.now
            (header_of header.now) (block_of payload bytes.now)) }
    {
        let task = Task {
            plan: plan(payload).unwrap(),
            limits: *self.limits,
        };
        let softs = softs_of(alloc, bytes)?;
        let (workers, sends) = (self.workers, &header.sends);
        (self.receive)(alloc, &task, workers, sends, softs.as_slice())
    }
}

/// Returns the output and the report line of a block.
pub fn handled(alloc: Global, number: usize, outcome: TbOutcome) -> Result<Handled, NoMemory>
    ensures { IfOk result (λ x. handled_of x ≡ handled number outcome) }
{
    let line = block_line(alloc, number, &outcome)?;
    Ok(match outcome {
        TbOutcome::Delivered { bytes, .. } => Handled {
            text: bytes.into_vec(),
            line,
            failed: false,
        },
        TbOutcome::Failed { .. } => Handled {
            text: Vec::new(alloc),
            line,
            failed: true,
        },
    })
}

impl<'a, F: Fn(Global, &Task, usize, &Sends, &[Soft]) -> Received> Handler for Decoding<'a, F> {
    ghost use Rattle.command_decode.specs.Decoding.{decoding};

    ghost able = { λ s. TakesTransmissions (F.pre s.receive.now) × GivesOutcomes (F.post s.receive.now) };

    ghost handling = { λ s. decoding s.limits.now };

    fn want(&self) -> Want {
        Want::Soft
    }

    fn header(&self, _header: &Header) -> Option<Header> {
        None
    }

    fn block(
        &self,
        alloc: Global,
        header: &Header,
        number: usize,
        payload: usize,
        bytes: &[u8],
    ) -> Result<Handled, NoMemory> {
        let outcome = self.outcome(alloc, header, payload, bytes)?;
        handled(alloc, number, outcome)
    }

    fn last(&self, alloc: Global, blocks: usize, failed: usize) -> Result<Vec<u8>, NoMemory> {
        last_line(alloc, blocks, failed)
    }
}
