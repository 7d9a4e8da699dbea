//! A transport block, coded once for all its transmissions (36.212 5.1.5).
ghost use Rattle.std.specs.Prelude.{◌≡◌, ◌≤◌, IfOk, length};
ghost use Rattle.model_sender.specs.Segmentation.{plan_of};
ghost use Rattle.model_sender.specs.CircularBuffer.{Fits};
ghost use Rattle.model_sender.specs.Codeword.{codeword};

use crate::code_blocks::CodeBlocks;
use crate::matching::Match;
use crate::selecting::push_piece;
use lte_bits::{Bit, List, NoMemory, Streams};
use segmentation::plan;
use std::alloc::Global;
use std::marker::Model;

/// A payload of 1 to 18,722 bytes, with the coded streams of its code blocks. Contracts see the payload.
#[derive(Debug, Drop)]
pub struct Coded<'a> {
    payload: &'a [u8],
    streams: Vec<Streams>,
}

impl<'a> Model for Coded<'a> {
    ghost use Rattle.std.specs.Prelude.{ℕ, List};

    ghost Value = { List ℕ };

    ghost use Rattle.rate_match.specs.Coded.{AreStreamsOf};

    ghost view = { λ c. c.payload.now };

    ghost invariant = { λ c. AreStreamsOf c.payload.now c.streams.items };
}

impl<'a> Coded<'a> {
    /// Segments a payload into code blocks (36.212, 5.1.1 and 5.1.2), and encodes each (5.1.3). Allocates the
    /// coded streams of all blocks.
    pub fn new(alloc: Global, payload: &'a [u8]) -> Result<Coded<'a>, NoMemory>
        requires some { 1 ≤ length payload.now }
        requires few { length payload.now ≤ 18722 }
        ensures { IfOk result (λ coded. coded ≡ payload.now) }
    {
        let mut blocks = CodeBlocks::new(alloc, payload)?;
        let count = blocks.plan().c;
        let mut streams = Vec::with_capacity(alloc, count)?;
        for r in 0..count {
            let (coded, others) = blocks.coded(alloc, r)?;
            streams.push(coded)?;
            blocks = others;
        }
        Ok(Coded { payload, streams })
    }

    /// Returns the G bits that redundancy version `rv`, 0 to 3, sends (36.212, 5.1.4.1 and 5.1.5), where
    /// the buffer fits the payload's plan. Allocates these bits.
    pub fn codeword(&self, alloc: Global, m: &Match, rv: u8) -> Result<List<Bit>, NoMemory>
        requires fits { Fits m.now (plan_of (length self.now)) }
        requires version { rv ≤ 3 }
        ensures codeword { IfOk result (λ bits. bits ≡ codeword self.now m.now rv) }
        ensures long { IfOk result (λ bits. length bits ≡ m.now.g) }
    {
        let plan = plan(self.payload.len()).unwrap();
        let mut bits = Vec::with_capacity(alloc, m.g())?;
        for (r, streams) in self.streams.iter().enumerate() {
            push_piece(&mut bits, streams, m, r, &plan, rv)?;
        }
        Ok(List::from_vec(bits))
    }
}
