//! A command over a stream as a whole.
ghost use Rattle.std.specs.Prelude.{◌≡◌, ◌<◌, ℕ, OnOk, OnErr, length, take};
ghost use Rattle.std.specs.Option.{option_map};
ghost use Rattle.edge_io.specs.Edge.{Adds, HasCause};
ghost use Rattle.coded_stream.specs.Shown.{header_of};
ghost use Rattle.stream_loop.specs.Handling.{opening_text};

use crate::handler::Handler;
use crate::rounds::{StreamRounds, status_of};
use coded_stream::{Header, StreamReader, write_header};
use edge_io::{Sink, SinkFault, Source};
use lte_bits::List;
use run_loop::{Open, SinkName, Status};
use std::alloc::Global;

/// A command that reads a stream of a kind that it takes, block by block. It ends as the definition of the
/// command's answer says: `BadStream` if the stream is refused, `SomeFailed` if a block failed, and else
/// `Done`, or by a fault or `NoMemory`, which comes only after an accepted header.
pub struct Stream<H: Handler>(pub H);

/// Writes what `out` begins with.
fn write_opening<D: Sink>(header: Option<Header>, out: &mut D) -> Result<(), SinkFault>
    ensures ok { OnOk result (Adds (D.held out.old) (D.held out.new)
        (opening_text (option_map header_of header))) }
    ensures err { OnErr result ((n : ℕ) × Adds (D.held out.old) (D.held out.new)
        (take n (opening_text (option_map header_of header)))) }
    ensures some { OnErr result (0 < length (opening_text (option_map header_of header))) }
    ensures cause { HasCause (D.faults out.old) (D.faults out.new) result }
{
    match header {
        Some(header) => write_header(out, &header),
        None => Ok(()),
    }
}

impl<H: Handler> Open for Stream<H> {
    ghost use Rattle.stream_loop.specs.Handling.{stream_answer};

    type Rounds = StreamRounds<H>;

    ghost answer = { λ s input. stream_answer (H.handling s.0) input };

    ghost able = { λ s. H.able s.0 };

    fn open<S: Source, D: Sink>(
        self,
        alloc: Global,
        source: &mut S,
        out: &mut D,
    ) -> Result<StreamRounds<H>, Status> {
        let Stream(handler) = self;
        let reader = StreamReader::begin(source, handler.want()).map_err(status_of)?;
        if let Err(SinkFault) = write_opening(handler.header(reader.header()), out) {
            return Err(Status::WriteFault {
                sink: SinkName::Out,
            });
        }
        Ok(StreamRounds {
            handler,
            reader,
            room: List::from_vec(Vec::new(alloc)),
            failed: 0,
        })
    }
}
