//! Soft values that are added to the cells of one code block.
ghost use Rattle.std.specs.Prelude.{◌≡◌, ◌≤◌, ◌<◌, ◌+◌, ◌*◌, ℕ, length, fold};
ghost use Rattle.std.specs.List.{zip};
ghost use Rattle.model_sender.specs.declared.spot.Spot.{Spot as Bit};
ghost use Rattle.model_sender.specs.Selection.{bits_from, holds_bit, repeated};
ghost use Rattle.model_receiver.specs.SoftCells.{added, has_bit, values_where};
ghost use Rattle.rate_match.specs.Runs.{bit_down};
ghost use Rattle.soft_buffers.specs.Buffers.{IsBit, cell_index, cell_of};
ghost use Rattle.soft_buffers.specs.Runs.{with_values};

use lte_bits::Soft;
use rate_match::{Ring, Run, Spot, Walk};

/// Returns the index of a bit's cell among those of a block of `k` bits.
fn cell_index(k: usize, spot: Spot) -> usize
    requires few { k ≤ 6144 }
    requires stream { spot.stream ≤ 2 }
    requires index { spot.index < k + 4 }
    ensures value { result ≡ cell_index k spot }
    ensures within { result < 3 * (k + 4) }
{
    usize::from(spot.stream) * (k + 4) + spot.index
}

/// Returns the saturated sum of a cell and a value.
fn added(cell: Soft, value: Soft) -> Soft
    ensures { result ≡ added cell value }
{
    cell.add_sat(value)
}

/// Adds the values of a run to the cells of its bits, in a block of `k` bits.
fn add_run(cells: &mut [Soft], k: usize, run: Run, values: &[Soft])
    requires size { k ≤ 6144 }
    requires cells { length cells.old ≡ 3 * (k + 4) }
    requires long { length values.now ≡ run.count }
    requires bits { (i : ℕ) → i < run.count → IsBit k (bit_down run.first i) }
    ensures { cells.new ≡ with_values k (bit_down run.first) values.now (length values.now) cells.old }
{
    for (i, value) in values.iter().enumerate() {
        let n = cell_index(k, run.spot(i));
        cells[n] = added(cells[n], *value);
    }
}

/// Adds each value to the cell of its bit: the bits are read from the circular buffer cyclically, from place
/// `start` on.
pub fn add_values(cells: &mut [Soft], ring: Ring, start: usize, values: &[Soft])
    requires cells { length cells.old ≡ 3 * (ring.k + 4) }
    ensures cells { (s : Bit) → IsBit ring.k s → cell_of ring.k cells.new s
        ≡ fold added (cell_of ring.k cells.old s) (values_where (has_bit ring.k ring.fill s)
        (zip (repeated (bits_from (holds_bit ring.k ring.fill) start ring.size) (length values.now))
        values.now)) }
    ensures long { length cells.new ≡ length cells.old }
{
    let mut walk = Walk::new(ring, start);
    let mut taken = 0;
    while taken < values.len() {
        let run = walk.next_run(values.len() - taken);
        add_run(cells, ring.k, run, &values[taken..taken + run.count]);
        taken += run.count;
    }
}
