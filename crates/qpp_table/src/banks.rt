//! The banks and rows of the places of windows.
ghost use Rattle.std.specs.Prelude.{◌≡◌, ◌≢◌, ℕ, ◌+◌, ◌*◌, ◌/◌, ◌<◌};
ghost use Prim.Native.Nat.{◌∣◌};
ghost use Rattle.model_sender.specs.Interleaver.{bank, row};
ghost use Rattle.qpp_table.specs.Qpp.{size_in, width, bank_at, row_at};

use crate::interleaver::{Interleaver, Qpp};

/// Returns the bank and the row of place `j` of window `t`, where `m` windows of one width W divide the size:
/// the quotient and the remainder by W of its interleaver address.
///
/// Place `j` is in the same row in all windows, and in a different bank in each.
pub fn bank_row(q: &Qpp, m: usize, t: usize, j: usize) -> (usize, usize)
    requires windows { m ∣ size_in q.now }
    requires window { t < m }
    requires place { j < width q.now m }
    ensures bank { result.0 ≡ bank_at q.now m t j }
    ensures row { result.1 ≡ row_at q.now m t j }
    ensures below { result.0 < m }
    ensures one_row { (u : ℕ) → u < m → row_at q.now m u j ≡ result.1 }
    ensures apart { (u : ℕ) → u < m → u ≢ t → bank_at q.now m u j ≢ result.0 }
{
    let width = q.size() / m;
    let place = q.at(j + t * width);
    (place / width, place % width)
}

/// Every interleaver keeps windows apart: place j is in the same row in all m windows, and in a different
/// bank in each.
pub fn windows_stay_apart<I: Interleaver>()
    ensures one_row { (q : I) (m j t : ℕ) → m ∣ I.size_of q → j < I.size_of q / m → t < m
        → let w = I.size_of q / m in row w (I.place_of q (j + t * w)) ≡ row w (I.place_of q j) }
    ensures below { (q : I) (m j t : ℕ) → m ∣ I.size_of q → j < I.size_of q / m → t < m
        → let w = I.size_of q / m in bank w (I.place_of q (j + t * w)) < m }
    ensures apart { (q : I) (m j t u : ℕ) → m ∣ I.size_of q → j < I.size_of q / m → t < m → u < m
        → let w = I.size_of q / m in
        bank w (I.place_of q (j + t * w)) ≡ bank w (I.place_of q (j + u * w)) → t ≡ u }
{}
