//! The two constituent coders over a whole block (36.212 5.1.3.2.1).
ghost use Rattle.std.specs.Prelude.{◌≡◌, ◌+◌, ◌<◌, ◌≤◌, ℕ, ◌++◌, Contains, length, map, slice_index, take};
ghost use Rattle.std.specs.List.{range_with_len};
ghost use Rattle.model_sender.specs.Bits.{at};
ghost use Rattle.model_sender.specs.ConstituentCoder.{State as Register, zero_state, state_number};
ghost use Rattle.model_sender.specs.ConstituentCoder.{parities, parities_from};
ghost use Rattle.model_sender.specs.CodedStreams.{cells_of, interleaved, null_filled};
ghost use Rattle.model_sender.specs.Interleaver.{place, sizes};
ghost use Rattle.model_sender.specs.Tail.{reached};

use crate::cells::write_nulls;
use crate::fours::four_steps;
use lte_bits::{Bit, Cell};
use rsc_trellis::State;

/// The final states of the two coders.
#[derive(Clone, Copy)]
pub struct Ends {
    pub first: State,
    pub second: State,
}

/// Returns the bits at four places.
fn bits_at(bits: &[Bit], places: &[u16; 4]) -> [Bit; 4]
    requires { (i : ℕ) → i < length places.now → slice_index places.now i < length bits.now }
    ensures { result ≡ map (at bits.now) places.now }
{
    let [a, b, c, d] = *places;
    [
        bits[usize::from(a)],
        bits[usize::from(b)],
        bits[usize::from(c)],
        bits[usize::from(d)],
    ]
}

/// Writes the four parity cells of four inputs from a state on, from place `at` on, and returns the number of
/// the next state.
fn write_four(cells: &mut [Cell], at: usize, state: usize, four: &[Bit; 4]) -> usize
    requires room { at + 4 ≤ length cells.old }
    requires state { state < 8 }
    ensures cells { (s : Register) → state_number s ≡ state
        → take (at + 4) cells.new ≡ take at cells.old ++ cells_of (parities_from s four.now) }
    ensures long { length cells.new ≡ length cells.old }
    ensures next { (s : Register) → state_number s ≡ state → state_number (reached s four.now) ≡ result }
    ensures small { result < 8 }
{
    let steps = four_steps(state, four);
    let [a, b, c, d] = steps.cells;
    cells[at] = a;
    cells[at + 1] = b;
    cells[at + 2] = c;
    cells[at + 3] = d;
    steps.next
}

/// Writes the parity cells of both coders, the second of which reads its bits at `places`, and returns their
/// final states. Both run side by side, since each step waits for a table look-up.
fn write_parities(first: &mut [Cell], second: &mut [Cell], bits: &[Bit], places: &[u16]) -> Ends
    requires size { Contains sizes (length bits.now) }
    requires places { places.now ≡ map (place (length bits.now)) (range_with_len 0 (length bits.now)) }
    requires first { length first.old ≡ length bits.now }
    requires second { length second.old ≡ length bits.now }
    ensures first { first.new ≡ cells_of (parities bits.now) }
    ensures second { second.new ≡ cells_of (parities (interleaved bits.now)) }
    ensures first_end { result.first ≡ reached zero_state bits.now }
    ensures second_end { result.second ≡ reached zero_state (interleaved bits.now) }
{
    let (fours, _) = bits.as_chunks::<4>();
    let (places, _) = places.as_chunks::<4>();
    let mut own = 0;
    let mut other = 0;
    for (i, four) in fours.iter().enumerate() {
        own = write_four(first, 4 * i, own, four);
        other = write_four(second, 4 * i, other, &bits_at(bits, &places[i]));
    }
    Ends {
        first: State::new(own as u8).unwrap(),
        second: State::new(other as u8).unwrap(),
    }
}

/// Returns the same, with `Null` at the first `fill` places of the first coder.
pub fn code(
    first: &mut [Cell],
    second: &mut [Cell],
    bits: &[Bit],
    places: &[u16],
    fill: usize,
) -> Ends
    requires size { Contains sizes (length bits.now) }
    requires places { places.now ≡ map (place (length bits.now)) (range_with_len 0 (length bits.now)) }
    requires first { length first.old ≡ length bits.now }
    requires second { length second.old ≡ length bits.now }
    ensures first { first.new ≡ null_filled fill (parities bits.now) }
    ensures second { second.new ≡ cells_of (parities (interleaved bits.now)) }
    ensures first_end { result.first ≡ reached zero_state bits.now }
    ensures second_end { result.second ≡ reached zero_state (interleaved bits.now) }
{
    let ends = write_parities(first, second, bits, places);
    write_nulls(first, fill);
    ends
}
