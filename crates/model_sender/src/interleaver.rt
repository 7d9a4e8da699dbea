//! The laws of the internal interleaver (36.212 5.1.3.2.3) and of the banks of its windows.
ghost use Rattle.std.specs.Prelude.{◌≡◌, ℕ, ◌+◌, ◌*◌, ◌/◌, ◌%◌, ◌<◌, ◌≤◌, All, Contains, List, [], ◌∷◌, map};
ghost use Prim.Native.Nat.{◌∣◌};
ghost use Rattle.model_sender.specs.Interleaver.{Lawful, pi, bank, row, sizes, row_of, place};
ghost use Rattle.model_sender.specs.Rows.{IsRow};

use crate::rows::ROWS;

/// Every row of the table is lawful, of a size from 40 to 6144 and with factors below 1024.
pub fn rows_are_lawful()
    ensures lawful { All (λ r. Lawful r.0 r.1 r.2) ROWS }
    ensures small { All IsRow ROWS }
{}

/// The values of a lawful row are below its size.
pub fn values_are_below()
    ensures { (k f1 f2 i : ℕ) → Lawful k f1 f2 → pi k f1 f2 i < k }
{}

/// A lawful row is a permutation: different places have different values.
pub fn values_differ()
    ensures { (k f1 f2 i j : ℕ) → Lawful k f1 f2 → i < k → j < k
        → pi k f1 f2 i ≡ pi k f1 f2 j → i ≡ j }
{}

/// Places that are a divisor w of the size apart have values that are congruent modulo w.
pub fn remainders_are_kept()
    ensures { (k f1 f2 w i : ℕ) → Lawful k f1 f2 → w ∣ k
        → pi k f1 f2 (i + w) % w ≡ pi k f1 f2 i % w }
{}

/// The values of place j of all m windows are in the same row.
pub fn windows_have_one_row()
    ensures { (k f1 f2 m j t u : ℕ) → Lawful k f1 f2 → m ∣ k → j < k / m → t < m → u < m
        → row (k / m) (pi k f1 f2 (j + t * (k / m))) ≡ row (k / m) (pi k f1 f2 (j + u * (k / m))) }
{}

/// The values of place j of the m windows are in m different banks.
pub fn windows_have_banks_of_their_own()
    ensures below { (k f1 f2 m j t : ℕ) → Lawful k f1 f2 → m ∣ k → j < k / m → t < m
        → bank (k / m) (pi k f1 f2 (j + t * (k / m))) < m }
    ensures apart { (k f1 f2 m j t u : ℕ) → Lawful k f1 f2 → m ∣ k → j < k / m → t < m → u < m
        → bank (k / m) (pi k f1 f2 (j + t * (k / m))) ≡ bank (k / m) (pi k f1 f2 (j + u * (k / m)))
        → t ≡ u }
{}

/// The row of a size is in the table.
pub fn sizes_stand_in_the_table()
    ensures { (k : ℕ) → Contains sizes k → Contains ROWS (row_of k) }
{}

/// The row of a size has that size, and is lawful and small.
pub fn sizes_have_lawful_rows()
    ensures size { (k : ℕ) → Contains sizes k → (row_of k).0 ≡ k }
    ensures lawful { (k : ℕ) → Contains sizes k → Lawful k (row_of k).1 (row_of k).2 }
    ensures small { (k : ℕ) → Contains sizes k → IsRow (row_of k) }
    ensures range { (k : ℕ) → Contains sizes k → (40 ≤ k) × (k ≤ 6144) }
{}

/// The interleaver of a size permutes the places below it.
pub fn places_are_permuted()
    ensures below { (k i : ℕ) → Contains sizes k → place k i < k }
    ensures apart { (k i j : ℕ) → Contains sizes k → i < k → j < k → place k i ≡ place k j → i ≡ j }
{}

/// The row of size 40, and the values of place 1 of four windows.
pub fn size_forty()
    ensures row { row_of 40 ≡ record { 0 = 40; 1 = 3; 2 = 10 } }
    ensures places { map (place 40) (1 ∷ 11 ∷ 21 ∷ 31 ∷ []) ≡ 13 ∷ 3 ∷ 33 ∷ 23 ∷ [] }
{}
