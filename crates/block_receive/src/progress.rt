//! One further transmission: its values are combined, and all code blocks are tried.
ghost use Rattle.std.specs.Prelude.{◌≡◌, ◌≤◌, ◌++◌, [], ◌∷◌, List, IfOk, length, map};
ghost use Rattle.model_sender.specs.CircularBuffer.{FitsIn};
ghost use Rattle.rate_match.specs.Matching.{limit_of};
ghost use Rattle.model_receiver.specs.SoftCells.{Reception, reception};
ghost use Rattle.model_receiver.specs.declared.result.CodeResult.{CodeResult};
ghost use Rattle.segmentation.specs.Shape.{AreBlocksOf};
ghost use Rattle.block_receive.specs.Decoders.{GivesResults, TakesBlocks};
ghost use Rattle.block_receive.specs.Held.{AreHeldOf};
ghost use Rattle.block_receive.specs.Progress.{ComesTo, GoesOn, IsReached};

use crate::payload::join;
use crate::task::Task;
use crate::tries::{Decoded, all_passed, hold_passed, total_iterations, try_blocks};
use lte_bits::{List, NoMemory, Soft, SoftStreams};
use rate_match::{Buffer, Match};
use segmentation::plans::Plan;
use soft_buffers::HarqBuffers;
use std::alloc::Global;
use std::mem;
use window_decode::{CodeResult, Shape};

/// The state after the transmissions so far: the soft cells, the results that are held for the next try, and
/// the iterations of the last.
#[derive(Drop)]
pub struct Progress {
    pub buffers: HarqBuffers,
    pub held: Vec<Option<CodeResult>>,
    pub iterations: usize,
}

/// The outcome of a try.
#[derive(Drop)]
pub enum Tried {
    /// All checks hold: the bytes of the payload.
    Delivered(List<u8>),
    /// Some check doesn't: the results that are held for the next try.
    Failed(Vec<Option<CodeResult>>),
}

/// Returns the outcome of a try with these results. If all blocks passed and the check of the transport block
/// fails, none is held.
fn comes_to(alloc: Global, results: Vec<CodeResult>, plan: &Plan) -> Result<Tried, NoMemory>
    requires { AreBlocksOf plan.now (map (λ x. x.block) results.items) }
    ensures { IfOk result (ComesTo plan.now results.items) }
{
    if !all_passed(results.as_slice()) {
        return Ok(Tried::Failed(hold_passed(alloc, results)?));
    }
    let joined = join(alloc, results, plan)?;
    if joined.holds {
        Ok(Tried::Delivered(joined.payload))
    } else {
        Ok(Tried::Failed(Vec::new(alloc)))
    }
}

impl Progress {
    /// Returns the state before the first transmission.
    pub fn new(alloc: Global, plan: &Plan, buffer: Buffer) -> Result<Progress, NoMemory>
        requires { FitsIn (limit_of buffer) plan.now.c plan.now.k_plus }
        ensures plan { IfOk result (λ p. p.buffers.plan ≡ plan.now) }
        ensures limit { IfOk result (λ p. p.buffers.limit ≡ limit_of buffer) }
        ensures held { IfOk result (λ p. AreHeldOf plan.now p.held.items) }
        ensures reached { IfOk result (λ p. IsReached p [] []) }
    {
        Ok(Progress {
            buffers: HarqBuffers::new(alloc, plan, buffer)?,
            held: Vec::new(alloc),
            iterations: 0,
        })
    }

    /// Combines the values of a further transmission, and tries all blocks. Returns the bytes of the payload
    /// if it is delivered.
    pub fn take<F: Fn(Global, &SoftStreams, &Shape) -> Decoded>(
        &mut self,
        alloc: Global,
        decode: &F,
        task: &Task,
        m: &Match,
        rv: u8,
        values: &[Soft],
    ) -> Result<Option<List<u8>>, NoMemory>
        requires plan { self.old.buffers.plan ≡ task.now.plan }
        requires held { AreHeldOf task.now.plan self.old.held.items }
        requires buffer { m.now.limit ≡ self.old.buffers.limit }
        requires version { rv ≤ 3 }
        requires values { length values.now ≡ m.now.g }
        requires takes { TakesBlocks (F.pre decode.now) }
        requires gives { GivesResults (F.post decode.now) }
        ensures plan { self.new.buffers.plan ≡ self.old.buffers.plan }
        ensures limit { self.new.buffers.limit ≡ self.old.buffers.limit }
        ensures held { IfOk result (λ _. AreHeldOf task.now.plan self.new.held.items) }
        ensures goes_on { (seen : List Reception) (last : List CodeResult) → IsReached self.old seen last →
            IfOk result (GoesOn task.now seen last (reception m.now rv values.now) self.new) }
    {
        self.buffers.combine(m, rv, values);
        let held = mem::replace(&mut self.held, Vec::new(alloc));
        let results = try_blocks(alloc, decode, task, &self.buffers, held)?;
        self.iterations = total_iterations(results.as_slice());
        match comes_to(alloc, results, &task.plan)? {
            Tried::Delivered(bytes) => Ok(Some(bytes)),
            Tried::Failed(held) => {
                self.held = held;
                Ok(None)
            }
        }
    }
}
