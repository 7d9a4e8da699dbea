//! Windows in lock step, by rows of their numbers.
ghost use Rattle.std.specs.Prelude.{◌≡◌, ◌≤◌, IfOk, length};
ghost use Rattle.lte_bits.specs.Softs.{IsWithin};
ghost use Rattle.window_rows.specs.Rows.{AreWithin, IsLaneCount};
ghost use Rattle.lock_step.specs.Lanes.{AreSoft};
ghost use Rattle.lock_step.specs.Vectors.{IsSmall};

use crate::mixed;
use crate::values::has_numbers;
use lock_step::{BordersIn, KernelScratch, SoftRows, run_rows};
use lte_bits::NoMemory;
use std::alloc::Global;
use std::process::Abort;
use std::test::Fail;
use window_decode::Border;

/// Puts a number into a lane.
fn put<const N: usize, const B: usize>(row: &mut [i16; N], lane: usize, number: i16)
    requires number { IsWithin B number }
    requires row { IsSmall N B row.old }
    ensures { IsSmall N B row.new }
{
    if lane < N {
        row[lane] = number;
    }
}

/// Returns rows that have numbers from -B to B in one lane, and 0 in the others.
fn rows<const N: usize, const B: usize>(
    alloc: Global,
    lane: usize,
    numbers: &[i16],
) -> Result<Vec<[i16; N]>, NoMemory>
    requires size { N ≤ 64 }
    requires bound { B ≤ 511 }
    ensures within { IfOk result (λ rows. AreWithin N B rows.items) }
    ensures long { IfOk result (λ rows. length rows.items ≡ length numbers.now) }
{
    let most = B as i16;
    let mut rows = vec![in alloc; [0; N]; numbers.len()]?;
    for j in 0..numbers.len() {
        put::<N, B>(&mut rows[j], lane, numbers[j].clamp(-most, most));
    }
    Ok(rows)
}

/// Returns soft values as wider numbers.
fn wide(values: [i8; 8]) -> [i16; 8] {
    let mut numbers = [0; 8];
    for (number, value) in numbers.iter_mut().zip(values) {
        *number = i16::from(value);
    }
    numbers
}

/// Decodes N windows from known to unknown borders, of which one is the mixed window, and the others have
/// zeros.
fn decode_lane<const N: usize>(rt: &impl Abort, alloc: Global, lane: usize) -> Result<(), NoMemory>
    requires { IsLaneCount N }
{
    let sys: Vec<[i16; N]> = rows::<N, 127>(alloc, lane, &wide(mixed::SYSTEMATIC))?;
    let par: Vec<[i16; N]> = rows::<N, 127>(alloc, lane, &wide(mixed::PARITY))?;
    let mut cells: Vec<[i16; N]> = rows::<N, 511>(alloc, lane, &mixed::OLD_CELLS)?;
    let mut sums = vec![in alloc; [0; N]; 8]?;
    let alpha_in = vec![in alloc; Border::known(); N]?;
    let beta_in = vec![in alloc; Border::unknown(); N]?;
    let mut alpha_out = vec![in alloc; Border::unknown(); N]?;
    let mut beta_out = vec![in alloc; Border::unknown(); N]?;
    let mut scratch = KernelScratch::<N>::new(alloc, 16)?;
    assert!(rt; lane < N);
    let borders = BordersIn {
        alpha: &alpha_in,
        beta: &beta_in,
    };
    let soft = SoftRows {
        systematic: &sys,
        parity: &par,
    };
    run_rows(
        &mut scratch,
        borders,
        soft,
        &mut cells,
        &mut sums,
        &mut alpha_out,
        &mut beta_out,
    );
    assert_eq!(rt; scratch.room(), 16);
    for j in 0..8 {
        assert_eq!(rt; cells[j][lane], mixed::NEW_CELLS[j], "position {j}");
        assert_eq!(rt; sums[j][lane] < 0, mixed::ONES[j], "position {j}");
    }
    assert!(rt; has_numbers(alpha_out[lane], mixed::FORWARD));
    assert!(rt; has_numbers(beta_out[lane], mixed::BACKWARD));
    Ok(())
}

#[test]
fn each_count_of_lanes_gives_the_cells_of_an_independent_program(
    rt: HostRuntime,
) -> Result<(), Fail> {
    decode_lane::<8>(&rt, rt.alloc(), 3)?;
    decode_lane::<16>(&rt, rt.alloc(), 15)?;
    decode_lane::<32>(&rt, rt.alloc(), 17)?;
    Ok(())
}
