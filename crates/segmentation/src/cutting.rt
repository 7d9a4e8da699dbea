//! Cutting a transport block into code blocks (36.212 5.1.2).
ghost use Rattle.std.specs.Prelude.{◌≡◌, ◌≤◌, ◌<◌, IfOk, length};
ghost use Rattle.model_sender.specs.CodeBlocks.{blocks};
ghost use Rattle.segmentation.specs.Shape.{AreBlocksOf};

use crate::plans::Plan;
use crate::transport::TransportBlock;
use lte_bits::{Block, List, NoMemory};
use std::alloc::Global;

/// Segments a payload of the plan's length into its C code blocks (36.212 5.1.2), each of its size: the first
/// F bits of block 0 are filler bits, and if C is above 1 each block ends with 24 check bits of its own.
/// Allocates the blocks.
pub fn cut(alloc: Global, payload: &[u8], plan: &Plan) -> Result<List<Block>, NoMemory>
    requires { plan.now.bytes ≡ length payload.now }
    ensures blocks { IfOk result (λ list. list ≡ blocks plan.now payload.now) }
    ensures shape { IfOk result (AreBlocksOf plan.now) }
{
    let transport = TransportBlock::new(payload, *plan);
    let mut code_blocks = Vec::with_capacity(alloc, plan.c)?;
    for r in 0..plan.c {
        code_blocks.push(transport.code_block(alloc, r)?)?;
    }
    Ok(List::from_vec(code_blocks))
}
