//! One try: held results are reused, and the other code blocks are decoded.
ghost use Rattle.std.specs.Prelude.{◌≡◌, ℕ, ◌≤◌, ◌<◌, List, All, IfOk, length, map};
ghost use Rattle.model_receiver.specs.Limits.{AreLimits};
ghost use Rattle.model_receiver.specs.SoftCells.{Reception};
ghost use Rattle.model_receiver.specs.TransportBlocks.{all_passed, block_result, if_passed, iterations_of, tried};
ghost use Rattle.segmentation.specs.Plans.{IsPlan};
ghost use Rattle.soft_buffers.specs.Buffers.{Hold};
ghost use Rattle.block_receive.specs.Decoders.{GivesResults, TakesBlocks};
ghost use Rattle.block_receive.specs.Tries.{result_from, tried_from};

use crate::shapes::block_shape;
use crate::task::Task;
use lte_bits::{NoMemory, SoftStreams};
use soft_buffers::HarqBuffers;
use std::alloc::Global;
use window_decode::{CodeResult, Shape};

/// The result of decoding a code block, or running out of memory.
pub type Decoded = Result<CodeResult, NoMemory>;

/// Decodes block `r`, below C, from the cells so far.
fn decode_at<F: Fn(Global, &SoftStreams, &Shape) -> Decoded>(
    alloc: Global,
    decode: &F,
    task: &Task,
    buffers: &HarqBuffers,
    r: usize,
) -> Result<CodeResult, NoMemory>
    requires block { r < task.now.plan.c }
    requires plan { buffers.now.plan ≡ task.now.plan }
    requires takes { TakesBlocks (F.pre decode.now) }
    requires gives { GivesResults (F.post decode.now) }
    ensures from { IfOk result (λ x. x
        ≡ result_from task.now.plan task.now.limits buffers.now.cells r) }
    ensures received { (xs : List Reception) → Hold buffers.now xs →
        IfOk result (λ x. x ≡ block_result task.now.plan task.now.limits xs r) }
{
    let streams = buffers.streams(alloc, r)?;
    decode(alloc, &streams, &block_shape(task, r))
}

/// Returns the results of a try: for block r the one at r in `held`, if any, or else by decoding the block.
/// An empty list holds none.
pub fn try_blocks<F: Fn(Global, &SoftStreams, &Shape) -> Decoded>(
    alloc: Global,
    decode: &F,
    task: &Task,
    buffers: &HarqBuffers,
    held: Vec<Option<CodeResult>>,
) -> Result<Vec<CodeResult>, NoMemory>
    requires plan { buffers.now.plan ≡ task.now.plan }
    requires takes { TakesBlocks (F.pre decode.now) }
    requires gives { GivesResults (F.post decode.now) }
    ensures from { IfOk result (λ results. results.items
        ≡ tried_from task.now.plan task.now.limits buffers.now.cells held.items) }
    ensures results { (xs : List Reception) → Hold buffers.now xs → IfOk result (λ results. results.items
        ≡ tried task.now.plan task.now.limits xs held.items) }
    ensures lawful { IsPlan task.now.plan }
    ensures limits { AreLimits task.now.limits }
{
    let plan = &task.plan;
    let limits = &task.limits;
    prove!(limits.limit <= 16);
    let mut held = held.into_iter();
    let mut results = Vec::with_capacity(alloc, plan.c)?;
    for r in 0..plan.c {
        let result = match held.next().flatten() {
            Some(result) => result,
            None => decode_at(alloc, decode, task, buffers, r)?,
        };
        results.push(result)?;
    }
    Ok(results)
}

/// Keeps the results that passed for the next try.
pub fn hold_passed(
    alloc: Global,
    results: Vec<CodeResult>,
) -> Result<Vec<Option<CodeResult>>, NoMemory>
    ensures { IfOk result (λ held. held.items ≡ map if_passed results.items) }
{
    let mut held = Vec::with_capacity(alloc, results.len())?;
    for result in results {
        held.push(result.passed.then_some(result))?;
    }
    Ok(held)
}

/// Returns whether the check of each code block holds.
pub fn all_passed(results: &[CodeResult]) -> bool
    ensures { result ≡ all_passed results.now }
{
    results.iter().all(|block| block.passed)
}

/// Returns the sum of the iterations of all blocks, at most 16 each.
pub fn total_iterations(results: &[CodeResult]) -> usize
    requires count { length results.now ≤ 25 }
    requires few { All (λ x. x.iterations ≤ 16) results.now }
    ensures { result ≡ iterations_of results.now }
{
    let mut total = 0;
    for result in results {
        total += result.iterations;
    }
    total
}
