//! Code blocks of chosen bits, for tests: what is sent of one, whether its check holds or not.
#![tactic(auto)]

mod outcomes;

use lte_bits::{Bit, Block, List, NoMemory, Soft, unpack};
pub use outcomes::told;
use qpp_table::qpp;
use rate_match::{Buffer, Match, fits_plan, select};
use segmentation::{fill, plan, size};
use std::alloc::Global;
use std::test::Fail;
use turbo_encode::encode;

/// Returns zeros, a one after them, and then the bits of these bytes.
pub fn zeros_and_one(alloc: Global, zeros: usize, after: &[u8]) -> Result<Vec<Bit>, NoMemory> {
    let mut bits = Vec::new(alloc);
    bits.resize(zeros, Bit::Zero)?;
    bits.push(Bit::One)?;
    bits.extend_from_slice(unpack(alloc, after)?.as_slice())?;
    Ok(bits)
}

/// Appends so many equal values.
pub fn push_equal(values: &mut Vec<Soft>, count: usize, value: i8) -> Result<(), NoMemory> {
    for _ in 0..count {
        values.push(Soft::from_i8(value))?;
    }
    Ok(())
}

/// Returns what redundancy version 0 sends, with Q_m = 2 and over a full buffer, of code block `r` of a
/// payload of so many bytes, where the block has these bits: 20 for each 0 and -20 for each 1. G is for all
/// blocks.
pub fn sent_of_block(
    alloc: Global,
    bytes: usize,
    g: u32,
    r: usize,
    bits: Vec<Bit>,
) -> Result<Vec<Soft>, Fail> {
    let plan = plan(bytes)?;
    let m = Match::new(2, 1, g, Buffer::Full)?;
    if r >= plan.c || !fits_plan(&m, &plan) {
        return Err(Fail::new("there is no such block"));
    }
    let block = Block {
        fill: fill(&plan, r),
        bits: List::from_vec(bits),
    };
    let long = block.bits.as_slice().len();
    if long != size(&plan, r) || qpp(long).is_none() {
        return Err(Fail::new("the block is of another size"));
    }
    let streams = encode(alloc, &block)?;
    let sent = select(alloc, &streams, &m, r, &plan, 0)?;
    let mut values = Vec::new(alloc);
    for bit in &sent {
        values.push(Soft::from_i8(if *bit == Bit::One { -20 } else { 20 }))?;
    }
    Ok(values)
}
