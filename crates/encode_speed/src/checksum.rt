//! Checksums of coded streams.
ghost use Rattle.std.specs.Prelude.{◌≡◌, ◌≤◌, fold};
ghost use Rattle.lte_bits.specs.Bits.{cell_of};
ghost use Rattle.encode_speed.specs.Checksum.{basis, digit, mixed};

use lte_bits::{Bit, Cell};

/// Returns the byte that represents a cell.
fn digit(cell: Cell) -> u32
    ensures { result ≡ digit cell }
{
    match cell {
        Cell::Zero => 0,
        Cell::One => 1,
        Cell::Null => 2,
    }
}

/// Returns a checksum updated by a cell.
fn mixed(sum: u32, cell: Cell) -> u32
    ensures { result ≡ mixed sum cell }
{
    (sum ^ digit(cell)).wrapping_mul(16_777_619)
}

/// Returns the 32-bit FNV-1a checksum of cells, one byte each: 0, 1, and 2 for `Null`.
pub fn checksum(cells: &[Cell]) -> u32
    ensures { result ≡ fold mixed basis cells.now }
{
    cells
        .iter()
        .fold(2_166_136_261, |sum, cell| mixed(sum, *cell))
}

/// Returns the checksum of bits, as cells.
pub fn bit_checksum(bits: &[Bit]) -> u32
    ensures { result ≡ fold (λ sum bit. mixed sum (cell_of bit)) basis bits.now }
{
    bits.iter()
        .fold(2_166_136_261, |sum, bit| mixed(sum, Cell::from(*bit)))
}
