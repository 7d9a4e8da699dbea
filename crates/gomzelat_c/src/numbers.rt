//! Bits, cells and spots as numbers.
ghost use Rattle.std.specs.Prelude.{◌≡◌, ◌<◌, ◌≤◌, ◌++◌, Contains, IfOk, length, map};
ghost use Rattle.lte_bits.specs.Bits.{digit};
ghost use Rattle.model_sender.specs.CircularBuffer.{buffer_size};
ghost use Rattle.model_sender.specs.Interleaver.{sizes};
ghost use Rattle.gomzelat_c.specs.Buffers.{with_front};
ghost use Rattle.gomzelat_c.specs.Stages.{cell_number, spot_number, spots_to};

use lte_bits::{Bit, Cell, List, NoMemory, Streams};
use model_sender::Spot;
use rate_match::spot;
use std::alloc::Global;

/// Returns each bit as 0 or 1.
pub fn digits_of(alloc: Global, bits: &[Bit]) -> Result<List<u8>, NoMemory>
    ensures { IfOk result (λ digits. digits ≡ map digit bits.now) }
{
    let mut digits = Vec::with_capacity(alloc, bits.len())?;
    for bit in bits {
        digits.push(u8::from(*bit))?;
    }
    Ok(List::from_vec(digits))
}

/// Returns 0, 1, or 2 at a NULL.
fn number_of(cell: Cell) -> u8
    ensures { result ≡ cell_number cell }
{
    match cell {
        Cell::Zero => 0,
        Cell::One => 1,
        Cell::Null => 2,
    }
}

/// Returns each cell as a number.
pub fn numbers_of(alloc: Global, cells: &[Cell]) -> Result<List<u8>, NoMemory>
    ensures { IfOk result (λ numbers. numbers ≡ map cell_number cells.now) }
{
    let mut numbers = Vec::with_capacity(alloc, cells.len())?;
    for cell in cells {
        numbers.push(number_of(*cell))?;
    }
    Ok(List::from_vec(numbers))
}

/// Returns the cells of three streams, one after the other.
pub fn cells_in_a_row(streams: Streams) -> Result<List<Cell>, NoMemory>
    ensures { IfOk result (λ cells. cells ≡ streams.d0 ++ streams.d1 ++ streams.d2) }
{
    let mut cells = streams.d0.into_vec();
    cells.extend_from_slice(streams.d1.as_slice())?;
    cells.extend_from_slice(streams.d2.as_slice())?;
    Ok(List::from_vec(cells))
}

/// Returns a spot as a number: 65,536 times its stream and its index, or 2^32 - 1 at a NULL.
fn number_of_spot(spot: Option<Spot>) -> u32
    requires { spot_number spot ≤ 4294967295 }
    ensures { result ≡ spot_number spot }
{
    match spot {
        None => u32::MAX,
        Some(Spot { stream, index }) => 65536 * u32::from(stream) + index as u32,
    }
}

/// Returns the spots of the circular buffer of a block of `k` bits, whose first `fill` are fillers.
pub fn spots_of(alloc: Global, k: usize, fill: usize) -> Result<List<u32>, NoMemory>
    requires size { Contains sizes k }
    requires fills { fill < k }
    ensures { IfOk result (λ spots. spots ≡ spots_to k fill (buffer_size k)) }
{
    let places = 96 * (k + 4).div_ceil(32);
    let mut spots = Vec::with_capacity(alloc, places)?;
    for n in 0..places {
        spots.push(number_of_spot(spot(k, fill, n)))?;
    }
    Ok(List::from_vec(spots))
}

/// Writes numbers to the beginning of a buffer.
pub fn write_numbers(buffer: &mut [u32], numbers: &[u32])
    requires { length numbers.now ≤ length buffer.old }
    ensures { buffer.new ≡ with_front numbers.now buffer.old }
{
    buffer[..numbers.len()].copy_from_slice(numbers);
}
