//! Writing of parts and closing texts to `out` and the report.
ghost use Rattle.run_loop.specs.Puts.{HasSinkCause, Puts, PutsEach};
ghost use Rattle.run_loop.specs.Step.{parts_of};

use crate::{Part, SinkName};
use edge_io::{Sink, SinkFault, write_all};

/// Writes a text to `out`, and then a line to the report.
pub fn put<D: Sink, R: Sink>(
    out: &mut D,
    report: &mut R,
    text: &[u8],
    line: &[u8],
) -> Result<(), SinkName>
    ensures bytes { Puts (D.held out.old) (D.held out.new) (R.held report.old) (R.held report.new)
        text.now line.now result }
    ensures cause { HasSinkCause (D.faults out.old) (D.faults out.new)
        (R.faults report.old) (R.faults report.new) result }
{
    if let Err(SinkFault) = write_all(out, text) {
        return Err(SinkName::Out);
    }
    if let Err(SinkFault) = write_all(report, line) {
        return Err(SinkName::Report);
    }
    Ok(())
}

/// Writes each part's text and line before those of the next.
pub fn put_all<D: Sink, R: Sink>(
    out: &mut D,
    report: &mut R,
    parts: &[Part],
) -> Result<(), SinkName>
    ensures bytes { PutsEach (D.held out.old) (D.held out.new)
        (R.held report.old) (R.held report.new) (parts_of parts.now) result }
    ensures cause { HasSinkCause (D.faults out.old) (D.faults out.new)
        (R.faults report.old) (R.faults report.new) result }
{
    for part in parts {
        if let Err(sink) = put(out, report, part.text.as_slice(), part.line.as_slice()) {
            return Err(sink);
        }
    }
    Ok(())
}
