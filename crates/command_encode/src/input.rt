//! The next bytes of the input.
ghost use Rattle.std.specs.Prelude.{◌≤◌, IfErr};
ghost use Rattle.edge_io.specs.Edge.{TakesBytes};
ghost use Rattle.run_loop.specs.Step.{FailsBy};
ghost use Rattle.command_encode.specs.Input.{IsInput};

use edge_io::{ReadStop, Source, read_exactly};
use run_loop::Status;
use std::alloc::Global;

/// The result of reading so many bytes.
#[derive(Debug, Drop)]
pub enum Input {
    /// All of them.
    Whole(Vec<u8>),
    /// Fewer, and then the input ended.
    Ended(Vec<u8>),
}

/// Reads `size` bytes, or all that are left if they are fewer. `NoMemory` comes before anything is read.
pub fn read_up_to<S: Source>(alloc: Global, source: &mut S, size: usize) -> Result<Input, Status>
    ensures bytes { IsInput size (S.left source.old) (S.left source.new) result }
    ensures moved { TakesBytes (S.left source.old) (S.left source.new) }
    ensures later { S.faults source.old ≤ S.faults source.new }
    ensures fails { IfErr result (FailsBy (S.faults source.old) (S.faults source.new)) }
{
    let Ok(mut bytes) = vec![in alloc; 0u8; size] else {
        return Err(Status::NoMemory);
    };
    match read_exactly(source, &mut bytes) {
        Ok(()) => Ok(Input::Whole(bytes)),
        Err(stop) => match stop {
            ReadStop::Fault => Err(Status::ReadFault),
            ReadStop::Ended { got } => {
                bytes.truncate(got);
                Ok(Input::Ended(bytes))
            }
        },
    }
}
