//! The addresses of an interleaver one after the other, by additions.
ghost use Rattle.std.specs.Prelude.{◌≡◌, ℕ, ◌+◌, ◌*◌, ◌%◌, ◌^◌, ◌<◌, ◌≤◌};

/// Returns the sum modulo `k` of two numbers below it.
fn sum_modulo(k: usize, a: usize, b: usize) -> usize
    requires size { k < 2 ^ 63 }
    requires first { a < k }
    requires second { b < k }
    ensures value { result ≡ (a + b) % k }
    ensures below { result < k }
{
    let sum = a + b;
    if sum < k { sum } else { sum - k }
}

/// A value of (f1 i + f2 i^2) mod K, its first difference, and the constant second difference, all modulo K,
/// so that the next value takes additions and no division.
#[derive(Clone, Copy)]
pub struct Walk {
    size: usize,
    pub place: usize,
    step: usize,
    growth: usize,
    ghost small: { size < 2 ^ 63 },
    pub ghost place_below: { place < size },
    ghost step_below: { step < size },
    ghost growth_below: { growth < size },
}

impl Walk {
    ghost use Rattle.qpp_table.specs.Walk.{size_along, IsAt};

    /// Returns the value of place 0, where K is `size`.
    #[inline]
    pub fn new(size: usize, f1: usize, f2: usize) -> Walk
        requires some { 1 ≤ size }
        requires small { size < 2 ^ 63 }
        requires first { f1 < 2 ^ 63 }
        requires second { f2 < 2 ^ 63 }
        ensures size { size_along result ≡ size }
        ensures at { IsAt f1 f2 0 result }
    {
        Walk {
            size,
            place: 0,
            step: (f1 + f2) % size,
            growth: 2 * f2 % size,
        }
    }

    /// Returns the value of the next place.
    #[inline]
    pub fn next(self) -> Walk
        ensures size { size_along result ≡ size_along self }
        ensures at { (f1 f2 i : ℕ) → IsAt f1 f2 i self → IsAt f1 f2 (i + 1) result }
    {
        Walk {
            size: self.size,
            place: sum_modulo(self.size, self.place, self.step),
            step: sum_modulo(self.size, self.step, self.growth),
            growth: self.growth,
        }
    }
}
