//! Cells as numbers: a value, and a sum that is negative exactly where the decided bit is 1.
ghost use Rattle.std.specs.Prelude.{◌≡◌, ℕ, ◌<◌, pos, int_lt};
ghost use Rattle.lte_bits.specs.Softs.{IsWithin};
ghost use Rattle.model_receiver.specs.Borders.{at};
ghost use Rattle.model_receiver.specs.Windows.{cell_at};
ghost use Rattle.lane_banks.specs.Banks.{cell_of};

use window_decode::Ext;

/// Returns the cell of a lane, decided by its sum.
pub fn lane_cell<const N: usize>(values: &[i16; N], sums: &[i16; N], b: usize) -> Ext
    requires lane { b < N }
    requires within { IsWithin 511 (at values.now b) }
    ensures { result ≡ cell_of (at values.now b) (at sums.now b) }
{
    Ext {
        value: values[b],
        one: sums[b] < 0,
    }
}

/// Returns a sum that decides a bit.
fn sum_of(one: bool) -> i16
    ensures { int_lt result (pos 0) ≡ one }
{
    if one { -1 } else { 0 }
}

/// Writes the values and the sums of a row of cells.
pub fn split<const N: usize>(row: &[Ext; N], values: &mut [i16; N], sums: &mut [i16; N])
    ensures value { (b : ℕ) → b < N → at values.new b ≡ (cell_at row.now b).value }
    ensures sum { (b : ℕ) → b < N → int_lt (at sums.new b) (pos 0) ≡ (cell_at row.now b).one }
    ensures within { (b : ℕ) → IsWithin 511 (at values.new b) }
{
    for b in 0..N {
        let cell = row[b];
        values[b] = cell.value;
        sums[b] = sum_of(cell.one);
    }
}
