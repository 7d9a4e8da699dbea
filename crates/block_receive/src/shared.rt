//! Reception with several workers.
ghost use Rattle.std.specs.Prelude.{◌≡◌, ◌≤◌, IfOk, length};
ghost use Rattle.model_sender.specs.CircularBuffer.{FitsIn};
ghost use Rattle.rate_match.specs.Sendings.{common};
ghost use Rattle.model_receiver.specs.Decoding.{code_result};
ghost use Rattle.model_receiver.specs.TransportBlocks.{outcome};
ghost use Rattle.half_iteration.specs.Views.{AreStreams};
ghost use Rattle.block_receive.specs.Receptions.{receptions, value_count};

use crate::receiving::receive;
use crate::task::Task;
use crate::tries::Decoded;
use lte_bits::{NoMemory, Soft, SoftStreams};
use model_receiver::{DecoderLimits, TbOutcome};
use rate_match::Sends;
use segmentation::plans::Plan;
use std::alloc::Global;
use std::sync::Wait;
use std::thread::Threads;
use window_decode::Shape;
use window_workers::{Gate, decode_block_shared};

impl Task {
    /// Decodes a transport block from its transmissions by 1 to 16 workers, which enter `gate` before each
    /// window. The buffer of `sends` fits the plan, and `softs` has the G values of each transmission, one
    /// transmission after the other. It waits for its workers.
    pub fn receive_shared<R: Threads + Wait + Sync, G: Gate + Sync>(
        &self,
        rt: &R,
        alloc: Global,
        sends: &Sends,
        softs: &[Soft],
        workers: usize,
        gate: &G,
    ) -> Result<TbOutcome, NoMemory>
        requires fits { FitsIn (common sends.now).limit self.now.plan.c self.now.plan.k_plus }
        requires values { length softs.now ≡ value_count sends.now }
        requires some_workers { 1 ≤ workers }
        requires few_workers { workers ≤ 16 }
        ensures { IfOk result (λ o. o ≡ outcome self.now.plan self.now.limits
            (receptions sends.now softs.now)) }
    {
        let decode = |alloc: Global, streams: &SoftStreams, shape: &Shape| -> Decoded
            requires { AreStreams streams.now shape.now × (1 ≤ workers) × (workers ≤ 16) }
            ensures { IfOk result (λ r. r ≡ code_result streams.now shape.now) }
        {
            let (result, _closed) = decode_block_shared(rt, alloc, streams, shape, workers, gate)?;
            Ok(result)
        };
        receive(alloc, &decode, self, sends, softs)
    }
}

/// Decodes a transport block from its transmissions by 1 to 16 workers, which enter `gate` before each
/// window. A code block is decoded in at most `windows` windows, 1 to 64, and with at most `limit`
/// iterations, 1 to 16. The buffer of `sends` fits the plan, and `softs` has the G values of each
/// transmission, one transmission after the other. It waits for its workers.
pub fn receive_shared<R: Threads + Wait + Sync, G: Gate + Sync>(
    rt: &R,
    alloc: Global,
    plan: &Plan,
    sends: &Sends,
    windows: usize,
    limit: usize,
    softs: &[Soft],
    workers: usize,
    gate: &G,
) -> Result<TbOutcome, NoMemory>
    requires fits { FitsIn (common sends.now).limit plan.now.c plan.now.k_plus }
    requires some_windows { 1 ≤ windows }
    requires few_windows { windows ≤ 64 }
    requires some_iterations { 1 ≤ limit }
    requires few_iterations { limit ≤ 16 }
    requires values { length softs.now ≡ value_count sends.now }
    requires some_workers { 1 ≤ workers }
    requires few_workers { workers ≤ 16 }
    ensures { IfOk result (λ o. o ≡ outcome plan.now
        (record { windows = windows; limit = limit }) (receptions sends.now softs.now)) }
{
    let task = Task {
        plan: *plan,
        limits: DecoderLimits { windows, limit },
    };
    task.receive_shared(rt, alloc, sends, softs, workers, gate)
}
