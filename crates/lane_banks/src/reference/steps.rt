//! The banks in which the cells of all windows are at one step, by an order: the decoder has the permutations of a
//! list of places, which takes no division.
ghost use Rattle.std.specs.Prelude.{◌≡◌, ℕ, ◌+◌, ◌*◌, ◌%◌, ◌<◌, ◌≤◌, length, slice_index};
ghost use Rattle.cell_shares.specs.Orders.{place_in, IsOrderOf};
ghost use Rattle.window_rows.specs.Rows.{IsLaneCount};
ghost use Rattle.lane_banks.specs.Permutations.{row_of_step, crossbar_of, place_of, HasEachOnce, IsTable};

use crate::permutations::LanePermutations;
use cell_shares::Order;

/// Returns the row in which the cells of N windows of `width` places are at step `j`, and the bank of each.
/// An interleaved order has N*width places; `width` is 8 to 768, and `j` is below it.
pub fn crossbar<const N: usize>(order: &Order, width: usize, j: usize) -> (usize, [u8; N])
    requires lanes { IsLaneCount N }
    requires order { IsOrderOf (N * width) order.now }
    requires least { 8 ≤ width }
    requires most { width ≤ 768 }
    requires step { j < width }
    ensures row { result.0 ≡ row_of_step order.now width j }
    ensures row_below { result.0 < width }
    ensures banks { result.1 ≡ crossbar_of N order.now width j }
    ensures once { HasEachOnce N result.1 }
    ensures one_row { (t : ℕ) → t < N → place_of (place_in order.now) width t j % width ≡ result.0 }
    ensures place { (t : ℕ) → t < N
        → slice_index result.1 t * width + result.0 ≡ place_of (place_in order.now) width t j }
{
    let size = N * width;
    let mut banks = [0; N];
    for t in 0..N {
        banks[t] = (order.place(size, t * width + j) / width) as u8;
    }
    (order.place(size, j) % width, banks)
}

/// Writes the permutations of an order.
pub fn follow<const N: usize>(permutations: &mut LanePermutations<N>, order: &Order, width: usize)
    requires lanes { IsLaneCount N }
    requires order { IsOrderOf (N * width) order.now }
    requires least { 8 ≤ width }
    requires most { width ≤ 768 }
    requires rows { width ≤ length permutations.old.rows.items }
    requires banks { width ≤ length permutations.old.banks.items }
    ensures rows { length permutations.new.rows.items ≡ length permutations.old.rows.items }
    ensures banks { length permutations.new.banks.items ≡ length permutations.old.banks.items }
    ensures table { IsTable N width (place_in order.now) permutations.new.rows.items permutations.new.banks.items }
{
    for j in 0..width {
        let (row, banks) = crossbar(order, width, j);
        permutations.set(j, row as u16, banks);
    }
}
