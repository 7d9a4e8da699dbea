//! Soft values in rows: row j has in lane t the value of position j of window t.
ghost use Rattle.std.specs.Prelude.{◌≡◌, ℕ, ◌+◌, ◌*◌, ◌<◌, length};
ghost use Rattle.lte_bits.specs.Softs.{IsWithin};
ghost use Rattle.model_receiver.specs.Borders.{at};
ghost use Rattle.window_rows.specs.Rows.{column, AreWithin, values_of_window};

use lte_bits::Soft;

/// Writes row `j` of values given by position, for windows of `width` positions.
fn lay_row<const N: usize>(values: &[Soft], width: usize, j: usize, row: &mut [i16; N])
    requires long { N * width ≡ length values.now }
    requires step { j < width }
    ensures value { (t : ℕ) → t < N → at row.new t ≡ at values.now (t * width + j) }
    ensures within { (t : ℕ) → IsWithin 127 (at row.new t) }
{
    for t in 0..N {
        row[t] = i16::from(values[t * width + j].value());
    }
}

/// Writes the W rows of N*W values given by position.
pub fn lay_out<const N: usize>(values: &[Soft], rows: &mut [[i16; N]])
    requires { N * length rows.old ≡ length values.now }
    ensures columns { (t : ℕ) → t < N
        → column t rows.new ≡ values_of_window (length rows.old) values.now t }
    ensures within { AreWithin N 127 rows.new }
{
    let width = rows.len();
    for j in 0..width {
        lay_row(values, width, j, &mut rows[j]);
    }
}
