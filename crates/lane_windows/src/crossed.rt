//! Windows in lock step over banks of cells, in natural order or permuted by a table.
ghost use Rattle.std.specs.Prelude.{◌≡◌, ℕ, ◌/◌, ◌≤◌, length};
ghost use Rattle.lock_step.specs.Lanes.{AreBordersOf, AreSoftRows};
ghost use Rattle.lane_windows.specs.Lanes.{HaveRun, LeadApart};
ghost use Rattle.lane_banks.specs.Permutations.{IsTable};

use crate::scratch::LaneScratch;
use lane_banks::{Banks, LanePermutations};
use lock_step::{BordersIn, KernelScratch, SoftRows, run_rows};
use window_decode::Border;

/// Decodes N windows in natural order: the cell of window t at step j is in row j of bank t.
pub fn run_straight<const N: usize>(
    kernel: &mut KernelScratch<N>,
    borders: BordersIn<'_>,
    soft: SoftRows<'_, N>,
    alpha_out: &mut [Border],
    beta_out: &mut [Border],
    banks: &mut Banks<N>,
)
    requires room { length banks.old / N ≤ kernel.old }
    requires borders { AreBordersOf N borders }
    requires soft { AreSoftRows (length banks.old / N) soft }
    requires alpha_out { length alpha_out.old ≡ N }
    requires beta_out { length beta_out.old ≡ N }
    ensures room { kernel.new ≡ kernel.old }
    ensures ran { HaveRun (length banks.old / N) (λ i. i) borders.entry soft.entry
        banks.old banks.new alpha_out.new beta_out.new }
{
    let values = banks.values.as_mut_slice();
    let sums = banks.sums.as_mut_slice();
    run_rows(kernel, borders, soft, values, sums, alpha_out, beta_out);
}

/// Decodes N windows in the order of a table of permutations, with room for their cells in the order of the
/// windows.
fn run_in_room<const N: usize>(
    kernel: &mut KernelScratch<N>,
    values: &mut [[i16; N]],
    sums: &mut [[i16; N]],
    permutations: &LanePermutations<N>,
    borders: BordersIn<'_>,
    soft: SoftRows<'_, N>,
    alpha_out: &mut [Border],
    beta_out: &mut [Border],
    banks: &mut Banks<N>,
)
    requires room { length banks.old / N ≤ kernel.old }
    requires values { length banks.old / N ≤ length values.old }
    requires sums { length banks.old / N ≤ length sums.old }
    requires permutations { LeadApart (length banks.old / N) permutations.now }
    requires borders { AreBordersOf N borders }
    requires soft { AreSoftRows (length banks.old / N) soft }
    requires alpha_out { length alpha_out.old ≡ N }
    requires beta_out { length beta_out.old ≡ N }
    ensures room { kernel.new ≡ kernel.old }
    ensures ran { (place : ℕ → ℕ)
        → IsTable N (length banks.old / N) place permutations.now.rows.items permutations.now.banks.items
        → HaveRun (length banks.old / N) place borders.entry soft.entry
        banks.old banks.new alpha_out.new beta_out.new }
{
    let width = soft.systematic.len();
    let values = &mut values[..width];
    let sums = &mut sums[..width];
    permutations.bring(banks.values.as_slice(), values);
    run_rows(kernel, borders, soft, values, sums, alpha_out, beta_out);
    permutations.put_back(values, banks.values.as_mut_slice());
    permutations.put_back(sums, banks.sums.as_mut_slice());
}

/// Decodes N windows in the order of a table of permutations.
pub fn run_crossed<const N: usize>(
    scratch: &mut LaneScratch<N>,
    permutations: &LanePermutations<N>,
    borders: BordersIn<'_>,
    soft: SoftRows<'_, N>,
    alpha_out: &mut [Border],
    beta_out: &mut [Border],
    banks: &mut Banks<N>,
)
    requires room { length banks.old / N ≤ scratch.old.kernel }
    requires permutations { LeadApart (length banks.old / N) permutations.now }
    requires borders { AreBordersOf N borders }
    requires soft { AreSoftRows (length banks.old / N) soft }
    requires alpha_out { length alpha_out.old ≡ N }
    requires beta_out { length beta_out.old ≡ N }
    ensures room { scratch.new.kernel ≡ scratch.old.kernel }
    ensures ran { (place : ℕ → ℕ)
        → IsTable N (length banks.old / N) place permutations.now.rows.items permutations.now.banks.items
        → HaveRun (length banks.old / N) place borders.entry soft.entry
        banks.old banks.new alpha_out.new beta_out.new }
{
    run_in_room(
        &mut scratch.kernel,
        scratch.values.as_mut_slice(),
        scratch.sums.as_mut_slice(),
        permutations,
        borders,
        soft,
        alpha_out,
        beta_out,
        banks,
    );
}
