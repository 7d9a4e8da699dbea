//! Interleavers, and those of a quadratic permutation polynomial.
ghost use Rattle.std.specs.Prelude.{◌≡◌, ℕ, ◌+◌, ◌%◌, ◌<◌, ◌≤◌};
ghost use Prim.Native.Nat.{◌∣◌};
ghost use Rattle.model_sender.specs.Interleaver.{Lawful};
ghost use Rattle.model_sender.specs.Rows.{IsRow};

use model_sender::Row;

/// A permutation of the places below a size that keeps the remainders by each divisor of the size.
pub trait Interleaver {
    ghost size_of: { Self → ℕ };

    ghost place_of: { Self → ℕ → ℕ };

    /// Returns the number of places.
    fn size(&self) -> usize
        ensures { result ≡ size_of self.now };

    /// Returns the place from which place `i` takes its value, Pi(i); `i` is below the size.
    fn at(&self, i: usize) -> usize
        requires { i < size_of self.now }
        ensures { result ≡ place_of self.now i };

    // Values are places.
    ghost below: { (q : Self) (i : ℕ) → i < size_of q → place_of q i < size_of q };

    // Different places have different values.
    ghost apart: { (q : Self) (i j : ℕ) → i < size_of q → j < size_of q
        → place_of q i ≡ place_of q j → i ≡ j };

    // Places that are a divisor of the size apart have values that are congruent modulo it.
    ghost kept: { (q : Self) (i w : ℕ) → w ∣ size_of q → i + w < size_of q
        → place_of q (i + w) % w ≡ place_of q i % w };
}

/// The interleaver Pi(i) = (f1 i + f2 i^2) mod K of a lawful row: f1 is a unit modulo K, and f2^7
/// is 0 modulo K.
#[derive(Clone, Copy, Debug, PartialEq, Eq)]
pub struct Qpp {
    k: usize,
    f1: usize,
    f2: usize,
    pub ghost lawful: { ∥ Lawful k f1 f2 ∥₁ },
    ghost size_bound: { k ≤ 6144 },
    ghost f1_bound: { f1 < 1024 },
    ghost f2_bound: { f2 < 1024 },
}

impl Qpp {
    ghost use Rattle.qpp_table.specs.Qpp.{row_in};

    /// Returns the interleaver of a row of the table.
    pub(crate) fn of_row(row: Row) -> Qpp
        requires { IsRow row }
        ensures { row_in result ≡ row }
    {
        Qpp {
            k: row.0,
            f1: row.1,
            f2: row.2,
        }
    }

    /// Returns the factor of the linear term.
    pub fn f1(&self) -> usize
        ensures { result ≡ (row_in self.now).1 }
    {
        self.f1
    }

    /// Returns the factor of the square.
    pub fn f2(&self) -> usize
        ensures { result ≡ (row_in self.now).2 }
    {
        self.f2
    }
}

impl Interleaver for Qpp {
    ghost use Rattle.qpp_table.specs.Qpp.{size_in, value_at};
    ghost use Rattle.qpp_table.specs.QppLaws.{value-below, values_differ, value-kept};

    ghost size_of = { size_in };

    ghost place_of = { value_at };

    ghost below = { value-below };

    ghost apart = { values_differ };

    ghost kept = { value-kept };

    fn size(&self) -> usize {
        self.k
    }

    fn at(&self, i: usize) -> usize {
        (self.f1 * i + self.f2 * i * i) % self.k
    }
}
