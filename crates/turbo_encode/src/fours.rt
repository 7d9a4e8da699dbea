//! Four steps of the constituent coder at once (36.212 5.1.3.2.1).
ghost use Rattle.std.specs.Prelude.{◌≡◌, ◌<◌, List, length};
ghost use Rattle.lte_bits.specs.declared.bit.Bit.{Bit};
ghost use Rattle.lte_bits.specs.Bits.{number};
ghost use Rattle.model_sender.specs.ConstituentCoder.{State as Register, parities_from, state_number};
ghost use Rattle.model_sender.specs.CodedStreams.{cells_of};
ghost use Rattle.model_sender.specs.Tail.{reached};
ghost use Rattle.turbo_encode.specs.Tables.{entry};

use lte_bits::{Bit, Cell};

/// The four parity bits as a number: a row for each four inputs, and a column for each state.
static PARITIES: [[u8; 8]; 16] = [
    [0, 7, 12, 11, 14, 9, 2, 5],
    [1, 6, 13, 10, 15, 8, 3, 4],
    [3, 4, 15, 8, 13, 10, 1, 6],
    [2, 5, 14, 9, 12, 11, 0, 7],
    [7, 0, 11, 12, 9, 14, 5, 2],
    [6, 1, 10, 13, 8, 15, 4, 3],
    [4, 3, 8, 15, 10, 13, 6, 1],
    [5, 2, 9, 14, 11, 12, 7, 0],
    [15, 8, 3, 4, 1, 6, 13, 10],
    [14, 9, 2, 5, 0, 7, 12, 11],
    [12, 11, 0, 7, 2, 5, 14, 9],
    [13, 10, 1, 6, 3, 4, 15, 8],
    [8, 15, 4, 3, 6, 1, 10, 13],
    [9, 14, 5, 2, 7, 0, 11, 12],
    [11, 12, 7, 0, 5, 2, 9, 14],
    [10, 13, 6, 1, 4, 3, 8, 15],
];

/// The number of the state after four inputs, likewise.
static NEXT: [[u8; 8]; 16] = [
    [0, 6, 3, 5, 7, 1, 4, 2],
    [4, 2, 7, 1, 3, 5, 0, 6],
    [2, 4, 1, 7, 5, 3, 6, 0],
    [6, 0, 5, 3, 1, 7, 2, 4],
    [5, 3, 6, 0, 2, 4, 1, 7],
    [1, 7, 2, 4, 6, 0, 5, 3],
    [7, 1, 4, 2, 0, 6, 3, 5],
    [3, 5, 0, 6, 4, 2, 7, 1],
    [6, 0, 5, 3, 1, 7, 2, 4],
    [2, 4, 1, 7, 5, 3, 6, 0],
    [4, 2, 7, 1, 3, 5, 0, 6],
    [0, 6, 3, 5, 7, 1, 4, 2],
    [3, 5, 0, 6, 4, 2, 7, 1],
    [7, 1, 4, 2, 0, 6, 3, 5],
    [1, 7, 2, 4, 6, 0, 5, 3],
    [5, 3, 6, 0, 2, 4, 1, 7],
];

/// The cells of four bits, in the order of their number.
static CELLS: [[Cell; 4]; 16] = [
    [Cell::Zero, Cell::Zero, Cell::Zero, Cell::Zero],
    [Cell::Zero, Cell::Zero, Cell::Zero, Cell::One],
    [Cell::Zero, Cell::Zero, Cell::One, Cell::Zero],
    [Cell::Zero, Cell::Zero, Cell::One, Cell::One],
    [Cell::Zero, Cell::One, Cell::Zero, Cell::Zero],
    [Cell::Zero, Cell::One, Cell::Zero, Cell::One],
    [Cell::Zero, Cell::One, Cell::One, Cell::Zero],
    [Cell::Zero, Cell::One, Cell::One, Cell::One],
    [Cell::One, Cell::Zero, Cell::Zero, Cell::Zero],
    [Cell::One, Cell::Zero, Cell::Zero, Cell::One],
    [Cell::One, Cell::Zero, Cell::One, Cell::Zero],
    [Cell::One, Cell::Zero, Cell::One, Cell::One],
    [Cell::One, Cell::One, Cell::Zero, Cell::Zero],
    [Cell::One, Cell::One, Cell::Zero, Cell::One],
    [Cell::One, Cell::One, Cell::One, Cell::Zero],
    [Cell::One, Cell::One, Cell::One, Cell::One],
];

/// The cells of four parity bits, and the number of the state after them.
#[derive(Clone, Copy)]
pub struct Steps {
    pub cells: [Cell; 4],
    pub next: usize,
}

/// Returns the number of four bits, most significant first. A product adds them up in its highest four
/// digits.
fn number(four: &[Bit; 4]) -> usize
    ensures value { result ≡ number four.now }
    ensures small { result < 16 }
{
    let digits = u32::from_le_bytes(four.map(u8::from));
    (digits.wrapping_mul(0x8040_2010) >> 28) as usize
}

/// Returns the number of the parity bits of four inputs from a state.
fn parities(state: usize, inputs: usize) -> usize
    requires state { state < 8 }
    requires inputs { inputs < 16 }
    ensures { result ≡ entry PARITIES inputs state }
{
    usize::from(PARITIES[inputs][state])
}

/// Returns the number of the state after them.
fn next(state: usize, inputs: usize) -> usize
    requires state { state < 8 }
    requires inputs { inputs < 16 }
    ensures { result ≡ entry NEXT inputs state }
{
    usize::from(NEXT[inputs][state])
}

/// Returns the cells of the four bits of a number.
fn cells(n: usize) -> [Cell; 4]
    requires { n < 16 }
    ensures { (bits : List Bit) → length bits ≡ 4 → number bits ≡ n → result ≡ cells_of bits }
{
    CELLS[n]
}

/// Returns four steps from the state with a number.
pub fn four_steps(state: usize, four: &[Bit; 4]) -> Steps
    requires { state < 8 }
    ensures cells { (s : Register) → state_number s ≡ state
        → result.cells ≡ cells_of (parities_from s four.now) }
    ensures next { (s : Register) → state_number s ≡ state
        → state_number (reached s four.now) ≡ result.next }
    ensures small { result.next < 8 }
{
    let inputs = number(four);
    Steps {
        cells: cells(parities(state, inputs)),
        next: next(state, inputs),
    }
}
