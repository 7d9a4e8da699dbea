//! One try from soft cells, and the payload of its results.
ghost use Rattle.std.specs.Prelude.{◌≡◌, IfOk, map};
ghost use Rattle.model_receiver.specs.Decoding.{code_result};
ghost use Rattle.model_receiver.specs.TransportBlocks.{delivers, held_after, payload_of};
ghost use Rattle.segmentation.specs.Shape.{AreBlocksOf};
ghost use Rattle.half_iteration.specs.Views.{AreStreams};
ghost use Rattle.block_receive.specs.Tries.{tried_from};

use crate::alone::decode_alone;
use crate::payload::join;
use crate::task::Task;
use crate::tries::{Decoded, all_passed, hold_passed, try_blocks};
use lte_bits::{List, NoMemory, SoftStreams};
use segmentation::plans::Plan;
use soft_buffers::HarqBuffers;
use std::alloc::Global;
use window_decode::{CodeResult, Shape};

/// The payload that the results of a try carry, as decided, and whether all checks hold.
#[derive(Debug, Drop)]
pub struct Carried {
    pub payload: List<u8>,
    pub delivered: bool,
}

/// Returns the results that are held after a try: those that passed, or none if all did, since then the check
/// of the transport block failed.
fn held_of(alloc: Global, last: Vec<CodeResult>) -> Result<Vec<Option<CodeResult>>, NoMemory>
    ensures { IfOk result (λ held. held.items ≡ held_after last.items) }
{
    if all_passed(last.as_slice()) {
        Ok(Vec::new(alloc))
    } else {
        hold_passed(alloc, last)
    }
}

/// Returns the results of a try from soft cells, decoded on one thread, where `last` are those of the try
/// before: a block of each block's size and fillers, of which those that passed are kept, unless all did.
pub fn try_alone(
    alloc: Global,
    task: &Task,
    buffers: &HarqBuffers,
    last: Vec<CodeResult>,
) -> Result<Vec<CodeResult>, NoMemory>
    requires plan { buffers.now.plan ≡ task.now.plan }
    requires blocks { AreBlocksOf task.now.plan (map (λ x. x.block) last.items) }
    ensures results { IfOk result (λ results. results.items
        ≡ tried_from task.now.plan task.now.limits buffers.now.cells (held_after last.items)) }
    ensures blocks { IfOk result (λ results. AreBlocksOf task.now.plan
        (map (λ x. x.block) results.items)) }
{
    let held = held_of(alloc, last)?;
    let decode = |alloc: Global, streams: &SoftStreams, shape: &Shape| -> Decoded
        requires { AreStreams streams.now shape.now }
        ensures { IfOk result (λ r. r ≡ code_result streams.now shape.now) }
    { decode_alone(alloc, streams, shape) };
    try_blocks(alloc, &decode, task, buffers, held)
}

/// Returns the payload that the results of a try carry, and whether it is delivered. Allocates the payload.
pub fn carried_by(alloc: Global, results: Vec<CodeResult>, plan: &Plan) -> Result<Carried, NoMemory>
    requires { AreBlocksOf plan.now (map (λ x. x.block) results.items) }
    ensures payload { IfOk result (λ c. c.payload ≡ payload_of plan.now results.items) }
    ensures delivered { IfOk result (λ c. c.delivered ≡ delivers plan.now results.items) }
{
    let passed = all_passed(results.as_slice());
    let joined = join(alloc, results, plan)?;
    Ok(Carried {
        payload: joined.payload,
        delivered: passed && joined.holds,
    })
}
