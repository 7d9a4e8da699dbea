//! The payload of code blocks (the inverse of 36.212 5.1.2).
ghost use Rattle.std.specs.Prelude.{◌≡◌, ◌≤◌, ◌+◌, ◌-◌, ◌*◌, ◌↔◌, IsTrue, IfOk, length, take, drop};
ghost use Rattle.lte_bits.specs.Packing.{packed};
ghost use Rattle.model_sender.specs.CheckBits.{IsMultiple, crc24a};
ghost use Rattle.model_sender.specs.CodeBlocks.{whole};
ghost use Rattle.segmentation.specs.Shape.{AreBlocksOf};

use crate::joined::Uncut;
use crate::planning::{CHECK_BITS, check_length};
use crate::plans::Plan;
use block_crc::checks_a;
use lte_bits::{Bit, Block, NoMemory, pack};
use std::alloc::Global;

/// Returns the bits of a block, without its fillers and its own check bits.
fn carried(block: &Block, own: usize) -> &[Bit]
    requires { block.now.fill + own ≤ length block.now.bits }
    ensures { result.now
        ≡ take (length block.now.bits - block.now.fill - own) (drop block.now.fill block.now.bits) }
{
    let bits = block.bits.as_slice();
    &bits[block.fill..bits.len() - own]
}

/// Returns the bits of the blocks, one after the other, without their fillers and own check bits.
fn whole(alloc: Global, blocks: &[Block], plan: &Plan) -> Result<Vec<Bit>, NoMemory>
    requires { AreBlocksOf plan.now blocks.now }
    ensures { IfOk result (λ bits. bits.items ≡ whole plan.now blocks.now) }
{
    let own = check_length(plan.c);
    let mut whole = Vec::with_capacity(alloc, 8 * plan.bytes + CHECK_BITS)?;
    for block in blocks {
        whole.extend_from_slice(carried(block, own))?;
    }
    Ok(whole)
}

/// Desegments the C code blocks of a plan, each of its size and with its fillers: the inverse of 36.212
/// 5.1.2. Drops fillers and the blocks' own check bits. `payload`, which is allocated, is the first `bytes`
/// bytes, and `holds` tells whether they and the 24 bits after them are a multiple of CRC24A.
pub fn uncut(alloc: Global, blocks: &[Block], plan: &Plan) -> Result<Uncut, NoMemory>
    requires { AreBlocksOf plan.now blocks.now }
    ensures payload { IfOk result (λ u. u.payload
        ≡ packed (take (8 * plan.now.bytes) (whole plan.now blocks.now))) }
    ensures holds { IfOk result (λ u. IsTrue u.holds
        ↔ IsMultiple crc24a (whole plan.now blocks.now)) }
{
    let whole = whole(alloc, blocks, plan)?;
    let bits = whole.as_slice();
    Ok(Uncut {
        payload: pack(alloc, &bits[..8 * plan.bytes])?,
        holds: checks_a(bits),
    })
}
