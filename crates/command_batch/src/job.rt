//! The decoding of one transport block, as a job.
ghost use Rattle.std.specs.Prelude.{◌≡◌, ◌≤◌, length};
ghost use Rattle.block_receive.specs.Receptions.{value_count};

use block_receive::{DecoderLimits, Task};
use coded_stream::Header;
use command_decode::Received;
use lte_bits::List;
use segmentation::plan;
use std::alloc::Global;
use stream_loop::softs_of;
use tb_pipeline::Job;

/// A block of a stream of soft values that is to be decoded: the bytes of its payload, and those of its
/// transmissions, one transmission after the other.
#[derive(Drop)]
pub struct BlockJob {
    pub alloc: Global,
    pub limits: DecoderLimits,
    pub header: Header,
    pub payload: usize,
    pub bytes: List<u8>,
    pub ghost some: { 1 ≤ payload },
    pub ghost few: { payload ≤ header.tb },
    pub ghost values: { length bytes ≡ value_count header.sends },
}

impl Job for BlockJob {
    ghost use Rattle.command_batch.specs.Jobs.{answers};

    type Done = Received;

    ghost answers = { answers };

    fn run(&self) -> Received {
        let plan = plan(self.payload).unwrap();
        let limits = self.limits;
        let task = Task { plan, limits };
        let softs = softs_of(self.alloc, self.bytes.as_slice())?;
        task.receive_alone(self.alloc, &self.header.sends, softs.as_slice())
    }
}
