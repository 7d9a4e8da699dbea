//! A transport block from its payload to the outcome of its reception.
ghost use Rattle.std.specs.Prelude.{◌≡◌, ◌≤◌, IfOk, length};
ghost use Rattle.model_sender.specs.Segmentation.{plan_of};
ghost use Rattle.model_sender.specs.CircularBuffer.{Fits};

use block_receive::{TbOutcome, receive_alone};
use lte_bits::{List, NoMemory, Soft};
use rate_match::{Buffer, Coded, Match, Sends};
use segmentation::plan;
use soft_channel::noisy;
use std::alloc::Global;

/// The channel: 40 for a 0 and -40 for a 1, with noise of standard deviation 20, drawn from a seed.
const AMP: u8 = 40;

const NOISE: u8 = 20;

const SEED: u64 = 1;

/// Returns the received soft values of transmission `number`, which sends redundancy version `rv`.
#[tactic(auto, using(soft_channel::proofs::Lengths::length_noisy))]
fn received(
    alloc: Global,
    coded: &Coded,
    m: &Match,
    rv: u8,
    number: u8,
) -> Result<List<Soft>, NoMemory>
    requires fits { Fits m.now (plan_of (length coded.now)) }
    requires version { rv ≤ 3 }
    requires number { number ≤ 7 }
    ensures { IfOk result (λ softs. length softs ≡ m.now.g) }
{
    let bits = coded.codeword(alloc, m, rv)?;
    let softs = noisy(alloc, bits.as_slice(), AMP, NOISE, SEED, 0, number)?;
    Ok(softs)
}

/// Sends a payload at redundancy versions 0 and 2, 528 bits each, and receives it.
pub fn transfer(alloc: Global, payload: &[u8]) -> Result<TbOutcome, NoMemory>
    requires some { 1 ≤ length payload.now }
    requires few { length payload.now ≤ 18722 }
{
    let m = Match::new(2, 1, 528, Buffer::Full).unwrap();
    let mut sends = Sends::one(m, 0).unwrap();
    let _added = sends.add(m, 2);
    let coded = Coded::new(alloc, payload)?;
    let mut softs = received(alloc, &coded, &m, 0, 0)?.into_vec();
    let second = received(alloc, &coded, &m, 2, 1)?;
    softs.extend_from_slice(second.as_slice())?;
    let plan = plan(payload.len()).unwrap();
    receive_alone(alloc, &plan, &sends, 8, 8, &softs)
}
