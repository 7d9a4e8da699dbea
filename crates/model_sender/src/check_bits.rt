//! Laws of the check bits (36.212 5.1.1). Each function computes nothing: its contract is the law.
ghost use Rattle.std.specs.Prelude.{◌≡◌, ◌^◌, ◌↔◌, ℕ, List, [], ◌∷◌, ◌++◌, length, map, replicate, sum};
ghost use Rattle.lte_bits.specs.Packing.{unpacked};
ghost use Rattle.lte_bits.specs.declared.bit.Bit.{Bit};
ghost use Rattle.model_sender.specs.CheckBits.{IsCrc, IsMonic, IsMultiple, crc, crc24a, crc24b, remainder};

use lte_bits::Bit;

/// The generators have the powers of D that the standard gives.
pub fn generators_have_their_powers()
    ensures a { crc24a
        ≡ sum (map (λ k. 2 ^ k) (24 ∷ 23 ∷ 18 ∷ 17 ∷ 14 ∷ 11 ∷ 10 ∷ 7 ∷ 6 ∷ 5 ∷ 4 ∷ 3 ∷ 1 ∷ 0 ∷ [])) }
    ensures b { crc24b ≡ sum (map (λ k. 2 ^ k) (24 ∷ 23 ∷ 6 ∷ 5 ∷ 1 ∷ 0 ∷ [])) }
{}

/// The generators have degree 24.
pub fn generators_are_monic()
    ensures a { IsMonic crc24a }
    ensures b { IsMonic crc24b }
{}

/// For each generator of degree 24 the function `crc` gives the check bits.
pub fn crc_is_the_one()
    ensures { (g : ℕ) (bits : List Bit) → IsMonic g → IsCrc g bits (crc g bits) }
{}

/// There are 24 check bits.
pub fn crc_has_24_bits()
    ensures { (g : ℕ) (bits : List Bit) → length (crc g bits) ≡ 24 }
{}

/// A list followed by its check bits is a multiple of the generator.
pub fn crc_makes_a_multiple()
    ensures a { (bits : List Bit) → IsMultiple crc24a (bits ++ crc crc24a bits) }
    ensures b { (bits : List Bit) → IsMultiple crc24b (bits ++ crc crc24b bits) }
{}

/// No 24 bits but the check bits make a multiple.
pub fn only_the_crc_makes_a_multiple()
    ensures a { (bits p : List Bit) → length p ≡ 24 → IsMultiple crc24a (bits ++ p) → p ≡ crc crc24a bits }
    ensures b { (bits p : List Bit) → length p ≡ 24 → IsMultiple crc24b (bits ++ p) → p ≡ crc crc24b bits }
{}

/// A list is a multiple of the generator exactly if its remainder is 0.
pub fn multiples_leave_nothing()
    ensures { (g : ℕ) (bits : List Bit) → IsMonic g → IsMultiple g bits ↔ (remainder g 0 bits ≡ 0) }
{}

/// A list of zeros, also the empty one, is a multiple of each generator.
pub fn zeros_are_a_multiple()
    ensures { (g n : ℕ) → IsMultiple g (replicate n Bit.Zero) }
{}

/// The check bits of the byte 01 are 86 4C FB and 80 00 63.
pub fn crc_of_byte_01()
    ensures a { crc crc24a (unpacked (0x01 ∷ [])) ≡ unpacked (0x86 ∷ 0x4C ∷ 0xFB ∷ []) }
    ensures b { crc crc24b (unpacked (0x01 ∷ [])) ≡ unpacked (0x80 ∷ 0x00 ∷ 0x63 ∷ []) }
{}

/// The check bits of the empty list are zeros.
pub fn crc_of_no_bits()
    ensures { (g : ℕ) → crc g [] ≡ replicate 24 Bit.Zero }
{}
