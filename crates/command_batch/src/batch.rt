//! The command `batch` as a whole.
use crate::reading::JobReader;
use crate::rounds::BatchRounds;
use crate::runner::Runner;
use block_receive::DecoderLimits;
use coded_stream::{StreamReader, Want};
use edge_io::{Sink, Source};
use run_loop::{Open, Status};
use std::alloc::Global;
use stream_loop::status_of;

/// Decodes the blocks of a stream of soft values, up to two for each pipe in a round: the blocks of a
/// round are read, then decoded, and then written in their order.
#[derive(Drop)]
pub struct Batch<'a, R: Runner> {
    pub runner: R,
    pub limits: &'a DecoderLimits,
}

impl<'a, R: Runner> Open for Batch<'a, R> {
    ghost use Rattle.command_batch.specs.Batch.{batch_answer};

    type Rounds = BatchRounds<R>;

    ghost answer = { λ s input. batch_answer s.limits.now (R.pipes s.runner) input };

    ghost able = { λ s. R.able s.runner };

    fn open<S: Source, D: Sink>(
        self,
        alloc: Global,
        source: &mut S,
        _out: &mut D,
    ) -> Result<BatchRounds<R>, Status> {
        let Batch { runner, limits } = self;
        match StreamReader::begin(source, Want::Soft) {
            Ok(reader) => Ok(BatchRounds {
                runner,
                jobs: JobReader {
                    reader,
                    limits: *limits,
                    rooms: Vec::new(alloc),
                },
                failed: 0,
            }),
            Err(stop) => Err(status_of(stop)),
        }
    }
}
