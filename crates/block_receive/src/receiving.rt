//! The transmissions of a transport block, one after the other.
ghost use Rattle.std.specs.Prelude.{◌≡◌, ◌≤◌, IfOk, length};
ghost use Rattle.model_sender.specs.CircularBuffer.{FitsIn};
ghost use Rattle.rate_match.specs.Sendings.{common};
ghost use Rattle.model_receiver.specs.Decoding.{code_result};
ghost use Rattle.model_receiver.specs.TransportBlocks.{outcome};
ghost use Rattle.half_iteration.specs.Views.{AreStreams};
ghost use Rattle.block_receive.specs.Decoders.{GivesResults, TakesBlocks};
ghost use Rattle.block_receive.specs.Receptions.{receptions, value_count};

use crate::alone::decode_alone;
use crate::progress::Progress;
use crate::task::Task;
use crate::tries::Decoded;
use lte_bits::{NoMemory, Soft, SoftStreams};
use model_receiver::{DecoderLimits, TbOutcome};
use rate_match::Sends;
use segmentation::plans::Plan;
use std::alloc::Global;
use window_decode::Shape;

/// Decodes a transport block from its transmissions, where `decode` decodes its code blocks. The buffer of
/// `sends` fits the plan, and `softs` has the G values of each transmission, one transmission after the
/// other. Allocates the soft cells, the memory of the decoder, and the results of all blocks.
pub fn receive<F: Fn(Global, &SoftStreams, &Shape) -> Decoded>(
    alloc: Global,
    decode: &F,
    task: &Task,
    sends: &Sends,
    softs: &[Soft],
) -> Result<TbOutcome, NoMemory>
    requires fits { FitsIn (common sends.now).limit task.now.plan.c task.now.plan.k_plus }
    requires values { length softs.now ≡ value_count sends.now }
    requires takes { TakesBlocks (F.pre decode.now) }
    requires gives { GivesResults (F.post decode.now) }
    ensures { IfOk result (λ o. o ≡ outcome task.now.plan task.now.limits
        (receptions sends.now softs.now)) }
{
    let mut progress = Progress::new(alloc, &task.plan, sends.buffer())?;
    let mut rest = softs;
    for i in 0..sends.len() {
        let (m, rv) = sends.at(i);
        let (values, after) = rest.split_at(m.g());
        rest = after;
        if let Some(bytes) = progress.take(alloc, decode, task, &m, rv, values)? {
            return Ok(TbOutcome::Delivered {
                bytes,
                transmissions: i + 1,
                iterations: progress.iterations,
            });
        }
    }
    Ok(TbOutcome::Failed {
        transmissions: sends.len(),
        iterations: progress.iterations,
    })
}

impl Task {
    /// Decodes a transport block from its transmissions, on one thread; 8, 16 or 32 windows run in lock step.
    /// The buffer of `sends` fits the plan, and `softs` has the G values of each transmission, one
    /// transmission after the other.
    pub fn receive_alone(
        &self,
        alloc: Global,
        sends: &Sends,
        softs: &[Soft],
    ) -> Result<TbOutcome, NoMemory>
        requires fits { FitsIn (common sends.now).limit self.now.plan.c self.now.plan.k_plus }
        requires values { length softs.now ≡ value_count sends.now }
        ensures { IfOk result (λ o. o ≡ outcome self.now.plan self.now.limits
            (receptions sends.now softs.now)) }
    {
        let decode = |alloc: Global, streams: &SoftStreams, shape: &Shape| -> Decoded
            requires { AreStreams streams.now shape.now }
            ensures { IfOk result (λ r. r ≡ code_result streams.now shape.now) }
        { decode_alone(alloc, streams, shape) };
        receive(alloc, &decode, self, sends, softs)
    }
}

/// Decodes a transport block from its transmissions, on one thread. A code block is decoded in at most
/// `windows` windows, 1 to 64, and with at most `limit` iterations, 1 to 16; 8, 16 or 32 windows run in lock
/// step. The buffer of `sends` fits the plan, and `softs` has the G values of each transmission, one
/// transmission after the other.
pub fn receive_alone(
    alloc: Global,
    plan: &Plan,
    sends: &Sends,
    windows: usize,
    limit: usize,
    softs: &[Soft],
) -> Result<TbOutcome, NoMemory>
    requires fits { FitsIn (common sends.now).limit plan.now.c plan.now.k_plus }
    requires some_windows { 1 ≤ windows }
    requires few_windows { windows ≤ 64 }
    requires some_iterations { 1 ≤ limit }
    requires few_iterations { limit ≤ 16 }
    requires values { length softs.now ≡ value_count sends.now }
    ensures { IfOk result (λ o. o ≡ outcome plan.now
        (record { windows = windows; limit = limit }) (receptions sends.now softs.now)) }
{
    let task = Task {
        plan: *plan,
        limits: DecoderLimits { windows, limit },
    };
    task.receive_alone(alloc, sends, softs)
}
