//! The sizes of code blocks (36.212 5.1.2).
ghost use Rattle.std.specs.Prelude.{◌≡◌, ◌≤◌, ◌<◌, ◌*◌, ◌≢◌, nat_le, nat_lt, find, map, reverse};
ghost use Rattle.model_sender.specs.Interleaver.{sizes};
ghost use Rattle.model_sender.specs.Segmentation.{larger_size, smaller_size};

use model_sender::{Row, table};

/// Returns the first size that is not below `low`.
fn first_from(rows: &[Row], low: usize) -> Option<usize>
    ensures { result ≡ find (λ size. nat_le low size) (map (λ row. row.0) rows.now) }
{
    rows.iter().map(|row| row.0).find(|size| low <= *size)
}

/// Returns the last size below `limit`.
fn last_below(rows: &[Row], limit: usize) -> Option<usize>
    ensures { result ≡ find (λ size. nat_lt size limit) (map (λ row. row.0) (reverse rows.now)) }
{
    rows.iter()
        .rev()
        .map(|row| row.0)
        .find(|size| *size < limit)
}

/// Returns K+, the least size with which `c` blocks hold `n` bits.
pub(crate) fn larger_size(c: usize, n: usize) -> usize
    requires some { 1 ≤ c }
    requires room { n ≤ c * 6144 }
    ensures { result ≡ larger_size c n }
{
    first_from(table(), n.div_ceil(c)).unwrap()
}

/// Returns K-, the greatest size below K+, where there are several blocks.
pub(crate) fn smaller_size(c: usize, k_plus: usize) -> usize
    requires { c ≢ 1 → 40 < k_plus }
    ensures { result ≡ smaller_size c k_plus }
{
    if c == 1 {
        0
    } else {
        last_below(table(), k_plus).unwrap()
    }
}
