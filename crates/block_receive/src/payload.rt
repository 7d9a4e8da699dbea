//! The payload of code blocks that were decoded.
ghost use Rattle.std.specs.Prelude.{◌≡◌, ◌↔◌, IfOk, IsTrue, map};
ghost use Rattle.model_sender.specs.CheckBits.{IsMultiple, crc24a};
ghost use Rattle.model_receiver.specs.TransportBlocks.{payload_of, whole_of};
ghost use Rattle.segmentation.specs.Shape.{AreBlocksOf};

use lte_bits::{Block, NoMemory};
use segmentation::joined::Uncut;
use segmentation::plans::Plan;
use segmentation::uncut;
use std::alloc::Global;
use window_decode::CodeResult;

/// Returns the blocks of results.
fn blocks_of(alloc: Global, results: Vec<CodeResult>) -> Result<Vec<Block>, NoMemory>
    ensures { IfOk result (λ blocks. blocks.items ≡ map (λ x. x.block) results.items) }
{
    let mut blocks = Vec::with_capacity(alloc, results.len())?;
    for result in results {
        blocks.push(result.block)?;
    }
    Ok(blocks)
}

/// Returns the payload that results carry, and whether the check of the transport block holds.
pub fn join(alloc: Global, results: Vec<CodeResult>, plan: &Plan) -> Result<Uncut, NoMemory>
    requires { AreBlocksOf plan.now (map (λ x. x.block) results.items) }
    ensures payload { IfOk result (λ u. u.payload ≡ payload_of plan.now results.items) }
    ensures holds { IfOk result (λ u. IsTrue u.holds
        ↔ IsMultiple crc24a (whole_of plan.now results.items)) }
{
    let blocks = blocks_of(alloc, results)?;
    uncut(alloc, blocks.as_slice(), plan)
}
