//! The borders of N windows, and their metrics lane by lane.
ghost use Rattle.std.specs.Prelude.{◌≡◌, ◌<◌, ℕ, length};
ghost use Rattle.model_receiver.specs.Borders.{IsBorder, at};
ghost use Rattle.window_rows.specs.Rows.{column};
ghost use Rattle.lock_step.specs.Lanes.{border_at};
ghost use Rattle.lock_step.specs.Vectors.{AreMetrics, AreBorders};

use window_decode::Border;

/// Writes each border's metric of state `s` to its lane.
fn put_numbers<const N: usize>(borders: &[Border], s: usize, row: &mut [i16; N])
    requires lanes { length borders.now ≡ N }
    requires state { s < 8 }
    ensures long { length row.new ≡ N }
    ensures lanes { (t : ℕ) → t < N → at row.new t ≡ at (border_at borders.now t) s }
    ensures borders { (t : ℕ) → t < N → IsBorder (border_at borders.now t) }
{
    for t in 0..borders.len() {
        row[t] = borders[t].numbers()[s];
    }
}

/// Writes the metrics of borders to the lanes.
pub fn put_borders<const N: usize>(borders: &[Border], m: &mut [[i16; N]; 8])
    requires { length borders.now ≡ N }
    ensures shape { AreMetrics N m.new }
    ensures lanes { (t : ℕ) → t < N → column t m.new ≡ border_at borders.now t }
    ensures borders { (t : ℕ) → t < N → IsBorder (border_at borders.now t) }
{
    put_numbers(borders, 0, &mut m[0]);
    put_numbers(borders, 1, &mut m[1]);
    put_numbers(borders, 2, &mut m[2]);
    put_numbers(borders, 3, &mut m[3]);
    put_numbers(borders, 4, &mut m[4]);
    put_numbers(borders, 5, &mut m[5]);
    put_numbers(borders, 6, &mut m[6]);
    put_numbers(borders, 7, &mut m[7]);
}

/// Returns the border in lane `t`.
fn lane_border<const N: usize>(m: &[[i16; N]; 8], t: usize) -> Border
    requires lane { t < N }
    requires shape { AreMetrics N m.now }
    requires border { IsBorder (column t m.now) }
    ensures { result ≡ column t m.now }
{
    Border::from_numbers([
        m[0][t], m[1][t], m[2][t], m[3][t], m[4][t], m[5][t], m[6][t], m[7][t],
    ])
}

/// Writes the border of each lane.
pub fn take_borders<const N: usize>(m: &[[i16; N]; 8], borders: &mut [Border])
    requires lanes { length borders.old ≡ N }
    requires borders { AreBorders N m.now }
    ensures { (t : ℕ) → t < N → border_at borders.new t ≡ column t m.now }
{
    for t in 0..borders.len() {
        borders[t] = lane_border(m, t);
    }
}
