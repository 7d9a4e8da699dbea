//! The report line of a fault. It allocates nothing.
ghost use Rattle.std.specs.Prelude.{◌≡◌, ◌≤◌, ℕ, List, map};
ghost use Rattle.edge_io.specs.Edge.{Rose};
ghost use Rattle.run_loop.specs.FaultLine.{AddsLine, fault_line, joined, place_line};

use crate::{SinkName, Status};
use edge_io::{Sink, SinkFault, write_all};
use itoa::Buffer;

/// Writes the pieces one after the other, until a write fails.
fn write_each<R: Sink>(report: &mut R, pieces: &[&[u8]])
    ensures told { AddsLine (R.held report.old) (R.held report.new)
        (joined (map (λ p. p.now) pieces.now)) (R.faults report.old) (R.faults report.new) }
    ensures later { R.faults report.old ≤ R.faults report.new }
{
    for piece in pieces {
        if let Err(SinkFault) = write_all(report, piece) {
            return;
        }
    }
}

/// Writes a text, a number, ` at ` and a place.
fn write_place<R: Sink>(report: &mut R, text: &[u8], number: u8, place: u64)
    ensures told { AddsLine (R.held report.old) (R.held report.new)
        (place_line text.now number place) (R.faults report.old) (R.faults report.new) }
    ensures later { R.faults report.old ≤ R.faults report.new }
{
    let mut number_text = Buffer::new();
    let mut place_text = Buffer::new();
    let number = number_text.format(number).as_bytes();
    let place = place_text.format(place).as_bytes();
    write_each(report, &[text, number, b" at ", place, b"\n"])
}

/// Appends the fault line of a run, unless it is done or the report itself failed. If a write fails, a prefix
/// of the line is there.
pub fn write_fault_line<R: Sink>(report: &mut R, status: Status)
    ensures told { AddsLine (R.held report.old) (R.held report.new) (fault_line status)
        (R.faults report.old) (R.faults report.new) }
    ensures later { R.faults report.old ≤ R.faults report.new }
{
    match status {
        Status::BadWords { number, place } => {
            write_place(report, b"bad words ", number, place as u64)
        }
        Status::BadStream { number, place } => write_place(report, b"bad stream ", number, place),
        Status::ReadFault => write_each(report, &[b"read fault\n"]),
        Status::WriteFault { sink } => match sink {
            SinkName::Out => write_each(report, &[b"write fault out\n"]),
            SinkName::Report => write_each(report, &[]),
        },
        Status::NoMemory => write_each(report, &[b"no memory\n"]),
        Status::Done | Status::SomeFailed => write_each(report, &[]),
    }
}
