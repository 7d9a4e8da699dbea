//! Permutation of rows from the order of the banks to that of the windows, and back.
ghost use Rattle.std.specs.Prelude.{◌≡◌, ℕ, ◌<◌, ◌≤◌, IfOk, length, slice_index, slice_set};
ghost use Rattle.lte_bits.specs.Softs.{IsWithin};
ghost use Rattle.model_receiver.specs.Borders.{at};
ghost use Rattle.window_rows.specs.Rows.{IsLaneCount, AreWithin, number_in};
ghost use Rattle.lane_banks.specs.Permutations.{bank_at, AreDistinct, IsInverse, AreInverse, IsTable, AreApart};

use crate::shuffles::shuffle;
use lte_bits::NoMemory;
use std::alloc::Global;
use window_rows::zeros::zero_banks;

/// The row and the banks in which the cells of N windows are at each step, and the window of each bank.
#[derive(Drop)]
pub struct LanePermutations<const N: usize> {
    pub rows: Vec<u16>,
    pub banks: Vec<[u8; N]>,
    windows: Vec<[u8; N]>,
    ghost long: { length windows.items ≡ length banks.items },
    ghost inverses: { AreInverse N banks.items windows.items },
}

/// Records window `t` at its bank, if the bank is below N.
fn put_window<const N: usize>(windows: &mut [u8; N], bank: u8, t: u8)
    requires { t < N }
    ensures long { length windows.new ≡ length windows.old }
    ensures put { bank < N → windows.new ≡ slice_set windows.old bank t }
    ensures below { ((b : ℕ) → b < N → slice_index windows.old b < N)
        → (b : ℕ) → b < N → slice_index windows.new b < N }
{
    let bank = usize::from(bank);
    if bank < N {
        windows[bank] = t;
    }
}

/// Writes the window of each bank in place: if the list were local and read back whole, it would stall in
/// store-to-load forwarding.
fn invert<const N: usize>(banks: &[u8; N], windows: &mut [u8; N])
    requires { IsLaneCount N }
    ensures { IsInverse N banks.now windows.new }
{
    let first = [0; N];
    *windows = first;
    for t in 0..N {
        put_window(windows, banks[t], t as u8);
    }
}

impl<const N: usize> LanePermutations<N> {
    /// Allocates permutations of `width` steps.
    pub fn new(alloc: Global, width: usize) -> Result<LanePermutations<N>, NoMemory>
        requires lanes { IsLaneCount N }
        ensures rows { IfOk result (λ c. length c.rows.items ≡ width) }
        ensures banks { IfOk result (λ c. length c.banks.items ≡ width) }
    {
        let rows = vec![in alloc; 0u16; width]?;
        let banks = zero_banks(alloc, width)?;
        let windows = zero_banks(alloc, width)?;
        Ok(LanePermutations {
            rows,
            banks,
            windows,
        })
    }

    /// Replaces the row and the banks of step `j`.
    pub fn set(&mut self, j: usize, row: u16, banks: [u8; N])
        requires lanes { IsLaneCount N }
        requires rows { j < length self.old.rows.items }
        requires banks { j < length self.old.banks.items }
        ensures rows { self.new.rows.items ≡ slice_set self.old.rows.items j row }
        ensures banks { self.new.banks.items ≡ slice_set self.old.banks.items j banks.entry }
    {
        self.rows[j] = row;
        invert(&banks, &mut self.windows[j]);
        self.banks[j] = banks;
    }

    /// Permutes rows from the order of banks to that of windows.
    pub fn bring(&self, from: &[[i16; N]], to: &mut [[i16; N]])
        requires lanes { IsLaneCount N }
        requires rows { length to.old ≤ length self.now.rows.items }
        requires banks { length to.old ≤ length self.now.banks.items }
        requires from { length from.now ≡ length to.old }
        requires within { AreWithin N 32767 from.now }
        requires table { (place : ℕ → ℕ)
            × IsTable N (length to.old) place self.now.rows.items self.now.banks.items }
        ensures brought { (j t : ℕ) → j < length to.old → t < N → number_in to.new j t
            ≡ number_in from.now (slice_index self.now.rows.items j) (bank_at self.now.banks.items j t) }
        ensures kept { (n : ℕ) → AreWithin N n from.now → AreWithin N n to.new }
    {
        for j in 0..to.len() {
            let row = usize::from(self.rows[j]);
            shuffle(&from[row], &self.banks[j], &mut to[j]);
        }
    }

    /// Permutes rows from the order of windows back to that of banks.
    pub fn put_back(&self, from: &[[i16; N]], to: &mut [[i16; N]])
        requires lanes { IsLaneCount N }
        requires rows { length from.now ≤ length self.now.rows.items }
        requires banks { length from.now ≤ length self.now.banks.items }
        requires to { length to.old ≡ length from.now }
        requires within { AreWithin N 32767 from.now }
        requires table { (place : ℕ → ℕ)
            × IsTable N (length from.now) place self.now.rows.items self.now.banks.items
            × AreApart N (length from.now) place }
        ensures put { (j t : ℕ) → j < length from.now → t < N
            → number_in to.new (slice_index self.now.rows.items j) (bank_at self.now.banks.items j t)
            ≡ number_in from.now j t }
        ensures kept { (n : ℕ) → AreWithin N n from.now → AreWithin N n to.old → AreWithin N n to.new }
    {
        for j in 0..from.len() {
            let row = usize::from(self.rows[j]);
            shuffle(&from[j], &self.windows[j], &mut to[row]);
        }
    }
}
