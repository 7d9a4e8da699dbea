//! Bit selection (36.212 5.1.4.1.2): which bits of a code block are sent.
ghost use Rattle.std.specs.Prelude.{◌≡◌, ◌≤◌, ◌<◌, ◌+◌, ◌++◌, ℕ};
ghost use Rattle.std.specs.Prelude.{Contains, IfOk, OnOk, IfSome, Some, map, length};
ghost use Rattle.std.specs.List.{range_with_len};
ghost use Rattle.lte_bits.specs.declared.bit.Cell.{Cell};
ghost use Rattle.model_sender.specs.Interleaver.{sizes};
ghost use Rattle.model_sender.specs.Segmentation.{size, fill};
ghost use Rattle.model_sender.specs.CircularBuffer.{AreStreams, Fits, buffer_size, cell_at};
ghost use Rattle.model_sender.specs.CircularBuffer.{piece_length, spot, stream_of, w};
ghost use Rattle.model_sender.specs.Selection.{bit_of_cell, bits_from, holds_bit, repeated, sent};
ghost use Rattle.rate_match.specs.Runs.{bit_down};
ghost use Rattle.rate_match.specs.Streams.{HasBit};

use crate::cursor::Cursor;
use crate::matching::Match;
use crate::numbers::{piece_len, rows_of, start};
use crate::rings::{Ring, ring_of};
use crate::runs::Run;
use crate::walk::Walk;
use lte_bits::{Bit, Cell, List, NoMemory, Streams};
use model_sender::Spot;
use segmentation::plans::Plan;
use std::alloc::Global;

/// Returns the bit of d0, d1 or d2 at place `n` of the circular buffer of a block of `k` bits,
/// the first `fill` of which are fillers (36.212, 5.1.4.1.1 and 5.1.4.1.2). `None` comes exactly where it is
/// NULL. K is one of the 188 sizes, `fill` is below K, and `n` is below K_w.
pub fn spot(k: usize, fill: usize, n: usize) -> Option<Spot>
    requires size { Contains sizes k }
    requires fills { fill < k }
    requires within { n < buffer_size k }
    ensures spot { result ≡ spot k fill n }
    ensures inside { IfSome result (λ spot. (spot.stream ≤ 2) × (spot.index < k + 4)) }
{
    let rows = rows_of(k);
    let ring = Ring {
        k,
        fill,
        rows,
        size: 96 * rows,
    };
    Cursor::at(ring, n).spot(ring)
}

/// Returns stream 0, 1 or 2.
fn stream_of(streams: &Streams, number: u8) -> &[Cell]
    ensures { result.now ≡ stream_of streams.now number }
{
    match number {
        0 => streams.d0.as_slice(),
        1 => streams.d1.as_slice(),
        _ => streams.d2.as_slice(),
    }
}

fn bit_of_cell(cell: Cell) -> Bit
    ensures { result ≡ bit_of_cell cell }
{
    match cell {
        Cell::One => Bit::One,
        Cell::Zero | Cell::Null => Bit::Zero,
    }
}

/// Returns the bit at a spot of the streams.
fn bit_at(streams: &Streams, spot: Spot) -> Bit
    requires { HasBit streams.now spot }
    ensures { result ≡ bit_of_cell (cell_at streams.now (Some spot)) }
{
    bit_of_cell(stream_of(streams, spot.stream)[spot.index])
}

/// Writes the bits of a run.
fn write_run(out: &mut [Bit], streams: &Streams, run: Run)
    requires long { length out.old ≡ run.count }
    requires bits { (i : ℕ) → i < run.count → HasBit streams.now (bit_down run.first i) }
    ensures { out.new ≡ map (λ i. bit_of_cell (cell_at streams.now (Some (bit_down run.first i))))
        (range_with_len 0 run.count) }
{
    for (i, bit) in out.iter_mut().enumerate() {
        *bit = bit_at(streams, run.spot(i));
    }
}

/// Writes the bits of the streams from place `start` of the ring on, cyclically.
fn write_bits(out: &mut [Bit], streams: &Streams, ring: Ring, start: usize)
    requires streams { AreStreams ring.k ring.fill streams.now }
    ensures { out.new ≡ map (λ n. bit_of_cell (w ring.k ring.fill streams.now n))
        (repeated (bits_from (holds_bit ring.k ring.fill) start ring.size) (length out.old)) }
{
    let mut walk = Walk::new(ring, start);
    let mut done = 0;
    while done < out.len() {
        let run = walk.next_run(out.len() - done);
        write_run(&mut out[done..done + run.count], streams, run);
        done += run.count;
    }
}

/// Appends the bits that redundancy version `rv` sends of the streams of block `r`.
pub(crate) fn push_piece(
    bits: &mut Vec<Bit>,
    streams: &Streams,
    m: &Match,
    r: usize,
    plan: &Plan,
    rv: u8,
) -> Result<(), NoMemory>
    requires block { r < plan.now.c }
    requires streams { AreStreams (size plan.now r) (fill plan.now r) streams.now }
    requires fits { Fits m.now plan.now }
    requires version { rv ≤ 3 }
    ensures { OnOk result (bits.new.items ≡ bits.old.items ++ sent plan.now m.now streams.now r rv) }
{
    let ring = ring_of(m, plan, r);
    let from = bits.len();
    bits.resize(from + piece_len(m, plan, r), Bit::Zero)?;
    write_bits(
        &mut bits.as_mut_slice()[from..],
        streams,
        ring,
        start(ring.k, ring.size, rv),
    );
    Ok(())
}

/// Returns the E_r bits that redundancy version `rv` sends of block `r` (36.212, 5.1.4.1.2), whose coded
/// streams these are: of the block's length, NULL at its fillers in d0 and d1, and nowhere in d2. `r` is
/// below C, the buffer fits the plan, and `rv` is 0 to 3. Allocates these bits.
pub fn select(
    alloc: Global,
    streams: &Streams,
    m: &Match,
    r: usize,
    plan: &Plan,
    rv: u8,
) -> Result<List<Bit>, NoMemory>
    requires block { r < plan.now.c }
    requires streams { AreStreams (size plan.now r) (fill plan.now r) streams.now }
    requires fits { Fits m.now plan.now }
    requires version { rv ≤ 3 }
    ensures sent { IfOk result (λ bits. bits ≡ sent plan.now m.now streams.now r rv) }
    ensures long { IfOk result (λ bits. length bits ≡ piece_length m.now plan.now.c r) }
{
    let mut bits = Vec::with_capacity(alloc, piece_len(m, plan, r))?;
    push_piece(&mut bits, streams, m, r, plan, rv)?;
    Ok(List::from_vec(bits))
}
