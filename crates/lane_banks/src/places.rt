//! The permutations of a list of places.
ghost use Rattle.std.specs.Prelude.{◌≡◌, ℕ, ◌+◌, ◌*◌, ◌/◌, ◌%◌, ◌<◌, ◌≤◌, IfOk, length, map, slice_index};
ghost use Rattle.std.specs.List.{range_with_len};
ghost use Rattle.window_rows.specs.Rows.{IsLaneCount};
ghost use Rattle.lane_banks.specs.Permutations.{IsTable};

use crate::permutations::LanePermutations;
use lte_bits::NoMemory;
use std::alloc::Global;

/// Writes `b` to the places of bank `b`, where each bank has `width`.
fn fill_bank(banks: &mut [u8], width: usize, b: usize)
    requires few { b < 64 }
    requires inside { (b + 1) * width ≤ length banks.old }
    ensures bank { (r : ℕ) → r < width → slice_index banks.new (b * width + r) ≡ b }
    ensures before { (i : ℕ) → i < b * width → slice_index banks.new i ≡ slice_index banks.old i }
{
    let first = b * width;
    for r in 0..width {
        banks[first + r] = b as u8;
    }
}

/// Writes the bank of each place, where each of N banks has `width`.
fn fill_banks<const N: usize>(banks: &mut [u8], width: usize)
    requires lanes { IsLaneCount N }
    requires some { 1 ≤ width }
    requires long { length banks.old ≡ N * width }
    ensures { banks.new ≡ map (λ i. i / width) (range_with_len 0 (N * width)) }
{
    for b in 0..N {
        fill_bank(banks, width, b);
    }
}

/// Returns the bank of each place, where each of N banks has `width`.
fn banks_of_places<const N: usize>(alloc: Global, width: usize) -> Result<Vec<u8>, NoMemory>
    requires lanes { IsLaneCount N }
    requires some { 1 ≤ width }
    requires most { width ≤ 768 }
    ensures { IfOk result (λ banks. banks.items ≡ map (λ i. i / width) (range_with_len 0 (N * width))) }
{
    let mut banks = vec![in alloc; 0u8; N * width]?;
    fill_banks::<N>(banks.as_mut_slice(), width);
    Ok(banks)
}

/// Returns the bank of the place of position `i`, by the banks of all places.
fn bank_at(places: &[u16], banks: &[u8], width: usize, i: usize) -> u8
    requires position { i < length places.now }
    requires place { slice_index places.now i < length banks.now }
    requires banks { banks.now ≡ map (λ n. n / width) (range_with_len 0 (length banks.now)) }
    ensures { result ≡ slice_index places.now i / width }
{
    banks[usize::from(places[i])]
}

/// Returns the row of the place of position `i`: the offset of the place in its bank.
fn row_at(places: &[u16], banks: &[u8], width: usize, i: usize) -> u16
    requires position { i < length places.now }
    requires place { slice_index places.now i < length banks.now }
    requires banks { banks.now ≡ map (λ n. n / width) (range_with_len 0 (length banks.now)) }
    requires some { 1 ≤ width }
    ensures { result ≡ slice_index places.now i % width }
{
    let bank = usize::from(bank_at(places, banks, width, i));
    (usize::from(places[i]) - bank * width) as u16
}

/// Returns the banks of N windows at step `j`.
fn banks_at<const N: usize>(places: &[u16], banks: &[u8], width: usize, j: usize) -> [u8; N]
    requires step { j < width }
    requires places { length places.now ≡ N * width }
    requires below { (i : ℕ) → i < length places.now → slice_index places.now i < length banks.now }
    requires banks { banks.now ≡ map (λ n. n / width) (range_with_len 0 (length banks.now)) }
    ensures { (t : ℕ) → t < N → slice_index result t ≡ slice_index places.now (t * width + j) / width }
{
    let mut permutation = [0; N];
    for t in 0..N {
        permutation[t] = bank_at(places, banks, width, t * width + j);
    }
    permutation
}

/// Returns the permutations of N windows of `width` positions at these places. It needs no division: the bank
/// of each place is tabulated, and its row is the offset in the bank.
pub fn permutations_of<const N: usize>(
    alloc: Global,
    places: &[u16],
    width: usize,
) -> Result<LanePermutations<N>, NoMemory>
    requires lanes { IsLaneCount N }
    requires least { 8 ≤ width }
    requires most { width ≤ 768 }
    requires places { length places.now ≡ N * width }
    requires below { (i : ℕ) → i < N * width → slice_index places.now i < N * width }
    requires one_row { (t j : ℕ) → t < N → j < width
        → slice_index places.now (t * width + j) % width ≡ slice_index places.now j % width }
    ensures rows { IfOk result (λ c. length c.rows.items ≡ width) }
    ensures banks { IfOk result (λ c. length c.banks.items ≡ width) }
    ensures table { IfOk result (λ c. IsTable N width (slice_index places.now) c.rows.items c.banks.items) }
{
    let banks = banks_of_places::<N>(alloc, width)?;
    let mut permutations = LanePermutations::<N>::new(alloc, width)?;
    let banks = banks.as_slice();
    for j in 0..width {
        let row = row_at(places, banks, width, j);
        permutations.set(j, row, banks_at(places, banks, width, j));
    }
    Ok(permutations)
}
