//! Reading the blocks of a round.
ghost use Rattle.std.specs.Prelude.{◌≡◌, ◌≤◌, ℕ, List, [], Some, All, length, true, vec_capacity};
ghost use Rattle.edge_io.specs.Edge.{Rose, TakesBytes};
ghost use Rattle.coded_stream.specs.Header.{kind_code};
ghost use Rattle.coded_stream.specs.Opening.{is_wanted};
ghost use Rattle.coded_stream.specs.Steps.{Advances, GoesOn, remaining};
ghost use Rattle.coded_stream.specs.Stream.{most_blocks};
ghost use Rattle.coded_stream.specs.declared.kind.Want.TheVariants as want;
ghost use Rattle.command_batch.specs.Jobs.{blocks_in, IsJobOf};
ghost use Rattle.command_batch.specs.Reading.{bytes_got, size_got, Comes, Counts, OnJob, Passes};

use crate::job::BlockJob;
use block_receive::DecoderLimits;
use coded_stream::{StreamReader, StreamStop};
use edge_io::Source;
use lte_bits::List;
use std::alloc::Global;

/// How the reading of a round ended.
#[derive(Debug, Drop)]
pub enum Reached {
    /// It has the maximum number of blocks.
    Full,
    /// The stream ended first.
    End,
    /// The reader stopped first.
    Stopped(StreamStop),
}

/// The reader of a stream of soft values, the limits for its blocks, and reusable buffers for the bytes of
/// blocks.
#[derive(Drop)]
pub struct JobReader {
    pub reader: StreamReader,
    pub limits: DecoderLimits,
    pub rooms: Vec<List<u8>>,
}

impl JobReader {
    /// Reads the next block.
    fn read_job<S: Source>(
        &mut self,
        alloc: Global,
        source: &mut S,
    ) -> Result<Option<BlockJob>, StreamStop>
        requires live { self.old.reader.live ≡ true }
        requires soft { is_wanted want.Soft (kind_code self.old.reader.header.kind) ≡ true }
        ensures limits { self.new.limits ≡ self.old.limits }
        ensures goes_on { (input : List ℕ) → S.left source.old ≡ Some input →
            GoesOn (remaining self.old.reader input) (remaining self.new.reader) (bytes_got result)
            (S.left source.old) (S.left source.new) (size_got result) }
        ensures advances { Advances self.old.reader self.new.reader (bytes_got result) (size_got result) }
        ensures job { OnJob result (IsJobOf self.old.limits self.old.reader.header) }
        ensures moved { TakesBytes (S.left source.old) (S.left source.new) }
        ensures later { S.faults source.old ≤ S.faults source.new }
        ensures fault { result ≡ Err StreamStop.Fault → Rose (S.faults source.old) (S.faults source.new) }
    {
        let mut bytes = match self.rooms.pop() {
            Some(room) => room,
            None => List::from_vec(Vec::new(alloc)),
        };
        match self.reader.next_block(source, &mut bytes) {
            Ok(Some(payload)) => Ok(Some(BlockJob {
                alloc,
                limits: self.limits,
                header: *self.reader.header(),
                payload,
                bytes,
            })),
            Ok(None) => Ok(None),
            Err(stop) => Err(stop),
        }
    }

    /// Reads the blocks of a round, at most `most`: `jobs` has room for them.
    pub fn read_jobs<S: Source>(
        &mut self,
        alloc: Global,
        source: &mut S,
        most: usize,
        jobs: &mut Vec<BlockJob>,
    ) -> Reached
        requires live { self.old.reader.live ≡ true }
        requires soft { is_wanted want.Soft (kind_code self.old.reader.header.kind) ≡ true }
        requires within { self.old.reader.blocks ≤ most_blocks }
        requires none { jobs.old.items ≡ [] }
        requires room { most ≤ vec_capacity jobs.old }
        ensures limits { self.new.limits ≡ self.old.limits }
        ensures comes { (input : List ℕ) → S.left source.old ≡ Some input →
            Comes self.old.reader self.new.reader input (blocks_in jobs.new.items)
            (S.left source.old) (S.left source.new) result }
        ensures passes { Passes self.old.reader self.new.reader (length jobs.new.items) }
        ensures counts { Counts (length jobs.new.items) most self.new.reader result }
        ensures within { self.new.reader.blocks ≤ most_blocks }
        ensures jobs { All (IsJobOf self.old.limits self.old.reader.header) jobs.new.items }
        ensures moved { TakesBytes (S.left source.old) (S.left source.new) }
        ensures later { S.faults source.old ≤ S.faults source.new }
        ensures fault { result ≡ Reached.Stopped StreamStop.Fault →
            Rose (S.faults source.old) (S.faults source.new) }
    {
        for _ in 0..most {
            match self.read_job(alloc, source) {
                Ok(Some(job)) => jobs.push_reserved(job),
                Ok(None) => return Reached::End,
                Err(stop) => return Reached::Stopped(stop),
            }
        }
        Reached::Full
    }

    /// Keeps the buffers of jobs for the next round, as many as it has memory for.
    pub fn keep_rooms(&mut self, jobs: Vec<BlockJob>)
        ensures reader { self.new.reader ≡ self.old.reader }
        ensures limits { self.new.limits ≡ self.old.limits }
    {
        for job in jobs {
            let _kept = self.rooms.push(job.bytes);
        }
    }
}
