//! The codeword of a transport block (36.212 5.1.5).
ghost use Rattle.std.specs.Prelude.{◌≡◌, ◌≤◌, IfOk, length};
ghost use Rattle.model_sender.specs.Segmentation.{plan_of};
ghost use Rattle.model_sender.specs.CircularBuffer.{Fits};
ghost use Rattle.model_sender.specs.Codeword.{codeword};

use crate::code_blocks::CodeBlocks;
use crate::matching::Match;
use crate::selecting::push_piece;
use lte_bits::{Bit, List, NoMemory};
use std::alloc::Global;

/// Returns the G bits that redundancy version `rv`, 0 to 3, sends of a payload of 1 to 18,722 bytes, whose
/// plan the buffer fits (36.212, 5.1.1 to 5.1.5). Allocates these bits, and temporarily the coded streams of
/// one code block at a time.
pub fn codeword(alloc: Global, payload: &[u8], m: &Match, rv: u8) -> Result<List<Bit>, NoMemory>
    requires some { 1 ≤ length payload.now }
    requires few { length payload.now ≤ 18722 }
    requires fits { Fits m.now (plan_of (length payload.now)) }
    requires version { rv ≤ 3 }
    ensures codeword { IfOk result (λ bits. bits ≡ codeword payload.now m.now rv) }
    ensures long { IfOk result (λ bits. length bits ≡ m.now.g) }
{
    let mut blocks = CodeBlocks::new(alloc, payload)?;
    let plan = blocks.plan();
    let mut bits = Vec::with_capacity(alloc, m.g())?;
    for r in 0..plan.c {
        let (streams, others) = blocks.coded(alloc, r)?;
        push_piece(&mut bits, &streams, m, r, &plan, rv)?;
        blocks = others;
    }
    Ok(List::from_vec(bits))
}
