//! Laws of the sequence and of scrambling. Each function computes nothing: its contract is the law.
ghost use Rattle.std.specs.Prelude.{◌≡◌, ℕ, ℤ, ◌+◌, ◌<◌, List, length};
ghost use Rattle.lte_bits.specs.declared.bit.Bit.{Bit};
ghost use Rattle.lte_bits.specs.declared.bit.Bit.TheVariants.{Zero, One};
ghost use Rattle.gold_scramble.specs.Places.{binary_digit, plus};
ghost use Rattle.gold_scramble.specs.Registers.{Registers, coming, moved, started};
ghost use Rattle.gold_scramble.specs.Scrambling.{scrambled, turned};
ghost use Rattle.gold_scramble.specs.Sequence.{c, x1, x2};

/// x1 is the one sequence that begins with 1 and 30 zeros and has x1(n+31) = x1(n+3) + x1(n).
pub fn x1_is_the_one()
    ensures begins { x1 0 ≡ One }
    ensures zeros { (n : ℕ) → 0 < n → n < 31 → x1 n ≡ Zero }
    ensures goes_on { (n : ℕ) → x1 (n + 31) ≡ plus (x1 (n + 3)) (x1 n) }
    ensures only { (x : ℕ → Bit) → x 0 ≡ One → ((n : ℕ) → 0 < n → n < 31 → x n ≡ Zero)
        → ((n : ℕ) → x (n + 31) ≡ plus (x (n + 3)) (x n)) → (n : ℕ) → x n ≡ x1 n }
{}

/// x2 is the one sequence that begins with the 31 bits of c_init, the lowest first, and has
/// x2(n+31) = x2(n+3) + x2(n+2) + x2(n+1) + x2(n).
pub fn x2_is_the_one()
    ensures begins { (init n : ℕ) → n < 31 → x2 init n ≡ binary_digit init n }
    ensures goes_on { (init n : ℕ) → x2 init (n + 31)
        ≡ plus (plus (plus (x2 init (n + 3)) (x2 init (n + 2))) (x2 init (n + 1))) (x2 init n) }
    ensures only { (init : ℕ) (x : ℕ → Bit) → ((n : ℕ) → n < 31 → x n ≡ binary_digit init n)
        → ((n : ℕ) → x (n + 31) ≡ plus (plus (plus (x (n + 3)) (x (n + 2))) (x (n + 1))) (x n))
        → (n : ℕ) → x n ≡ x2 init n }
{}

/// A generator gives the sequence: its bits to come are c from the first on, and where it has moved on, those
/// after.
pub fn generators_give_the_sequence()
    ensures begins { (init n : ℕ) → coming (started init) n ≡ c init n }
    ensures goes_on { (init m n : ℕ) → coming (moved (started init) m) n ≡ c init (m + n) }
    ensures moves { (init m n : ℕ) → moved (moved (started init) m) n ≡ moved (started init) (m + n) }
{}

/// Scrambling twice restores the bits.
pub fn scrambling_twice_gives_the_bits_back()
    ensures { (init : ℕ) (bits : List Bit) → scrambled init (scrambled init bits) ≡ bits }
{}

/// Descrambling twice restores the soft values.
pub fn turning_twice_gives_the_values_back()
    ensures { (init : ℕ) (softs : List ℤ) → turned init (turned init softs) ≡ softs }
{}

/// As many bits and soft values come out as go in.
pub fn lengths_stay()
    ensures bits { (init : ℕ) (bits : List Bit) → length (scrambled init bits) ≡ length bits }
    ensures softs { (init : ℕ) (softs : List ℤ) → length (turned init softs) ≡ length softs }
{}
