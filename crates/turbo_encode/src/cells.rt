//! Cells of the coded streams.
ghost use Rattle.std.specs.Prelude.{◌≡◌, ◌<◌, ◌^◌, ◌++◌, IfOk, length};
ghost use Rattle.lte_bits.specs.declared.bit.Cell.{Cell};
ghost use Rattle.model_sender.specs.CodedStreams.{cells_of, null_filled};
ghost use Rattle.turbo_encode.specs.Fillers.{nulls_first};

use crate::tails::TAIL;
use lte_bits::{Bit, Cell, List, NoMemory};
use std::alloc::Global;

/// Writes the cells of bits.
fn write_cells(cells: &mut [Cell], bits: &[Bit])
    requires { length cells.old ≡ length bits.now }
    ensures { cells.new ≡ cells_of bits.now }
{
    for (i, cell) in cells.iter_mut().enumerate() {
        *cell = Cell::from(bits[i]);
    }
}

/// Writes `Null` at the first `fill` places.
pub fn write_nulls(cells: &mut [Cell], fill: usize)
    ensures { cells.new ≡ nulls_first fill cells.old }
{
    for i in 0..fill.min(cells.len()) {
        cells[i] = Cell::Null;
    }
}

/// Writes the cells of bits, `Null` at the first `fill` places.
fn write_filled(cells: &mut [Cell], bits: &[Bit], fill: usize)
    requires { length cells.old ≡ length bits.now }
    ensures { cells.new ≡ null_filled fill bits.now }
{
    write_cells(cells, bits);
    write_nulls(cells, fill);
}

/// Returns `k` cells, allocated with capacity for the tail too.
pub fn room(alloc: Global, k: usize) -> Result<Vec<Cell>, NoMemory>
    requires { k < 2 ^ 63 }
    ensures { IfOk result (λ cells. length cells.items ≡ k) }
{
    let mut cells = Vec::with_capacity(alloc, k + TAIL)?;
    cells.resize(k, Cell::Zero)?;
    Ok(cells)
}

/// Returns the cells of the systematic bits, `Null` at the first `fill` places, with capacity for the tail.
pub fn systematic(alloc: Global, bits: &[Bit], fill: usize) -> Result<Vec<Cell>, NoMemory>
    ensures { IfOk result (λ cells. cells.items ≡ null_filled fill bits.now) }
{
    let mut cells = room(alloc, bits.len())?;
    write_filled(cells.as_mut_slice(), bits, fill);
    Ok(cells)
}

/// Returns the cells, followed by those of the tail's bits.
pub fn ended(mut cells: Vec<Cell>, tail: [Bit; TAIL]) -> Result<List<Cell>, NoMemory>
    ensures { IfOk result (λ stream. stream ≡ cells.items ++ cells_of tail) }
{
    for bit in tail {
        cells.push(Cell::from(bit))?;
    }
    Ok(List::from_vec(cells))
}
