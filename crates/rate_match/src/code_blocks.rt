//! The code blocks of a payload, coded one after the other (36.212 5.1.2, 5.1.3).
ghost use Rattle.std.specs.Prelude.{◌≡◌, ◌≤◌, ◌<◌, IfOk, length};
ghost use Rattle.model_sender.specs.Segmentation.{plan_of};
ghost use Rattle.model_sender.specs.CodeBlocks.{block};
ghost use Rattle.model_sender.specs.CodedStreams.{streams};

use lte_bits::{NoMemory, Streams};
use segmentation::plans::Plan;
use segmentation::{TransportBlock, plan, size};
use std::alloc::Global;
use std::marker::Model;
use turbo_encode::{InterleaverAddresses, encode_with};

/// A payload, and the interleaver addresses of the code block that was coded last. Contracts see the payload.
#[derive(Drop)]
pub struct CodeBlocks<'a> {
    transport: TransportBlock<'a>,
    addresses: InterleaverAddresses,
}

impl<'a> Model for CodeBlocks<'a> {
    ghost use Rattle.std.specs.Prelude.{ℕ, List};

    ghost Value = { List ℕ };

    ghost use Rattle.rate_match.specs.Coded.{MayBeSent};

    ghost view = { λ b. b.transport };

    ghost invariant = { λ b. MayBeSent b.transport };
}

impl<'a> CodeBlocks<'a> {
    /// Takes a payload of 1 to 18,722 bytes.
    pub fn new(alloc: Global, payload: &'a [u8]) -> Result<CodeBlocks<'a>, NoMemory>
        requires some { 1 ≤ length payload.now }
        requires few { length payload.now ≤ 18722 }
        ensures { IfOk result (λ blocks. blocks ≡ payload.now) }
    {
        let plan = plan(payload.len()).unwrap();
        let addresses = InterleaverAddresses::new(alloc, size(&plan, 0))?;
        Ok(CodeBlocks {
            transport: TransportBlock::new(payload, plan),
            addresses,
        })
    }

    /// Returns the plan of the payload.
    pub fn plan(&self) -> Plan
        ensures { result ≡ plan_of (length self.now) }
    {
        self.transport.plan()
    }

    /// Returns the coded streams of block `r`, which is below C, and the encoder of the other blocks.
    pub fn coded(self, alloc: Global, r: usize) -> Result<(Streams, CodeBlocks<'a>), NoMemory>
        requires { r < (plan_of (length self)).c }
        ensures streams { IfOk result (λ coded.
            coded.0 ≡ streams (block (plan_of (length self.entry)) self.entry r)) }
        ensures payload { IfOk result (λ coded. coded.1 ≡ self.entry) }
    {
        let CodeBlocks {
            transport,
            addresses,
        } = self;
        let block = transport.code_block(alloc, r)?;
        let addresses = addresses.for_size(alloc, block.bits.as_slice().len())?;
        let streams = encode_with(alloc, &block, &addresses)?;
        Ok((
            streams,
            CodeBlocks {
                transport,
                addresses,
            },
        ))
    }
}
