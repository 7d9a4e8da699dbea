//! Laws of soft values. Each function computes nothing: its contract is the law.
ghost use Rattle.std.specs.Prelude.{◌≡◌, ℕ, ℤ, ◌/◌, ◌%◌, ◌<◌, ◌≤◌, All, List, length, map};
ghost use Rattle.std.specs.List.{range_with_len};
ghost use Rattle.lte_bits.specs.Softs.{IsWithin};
ghost use Rattle.lte_bits.specs.declared.bit.Bit.{Bit};
ghost use Rattle.qam_points.specs.Constellation.{IsSmall, mapped};
ghost use Rattle.qam_points.specs.Demapping.{IsNear, IsNearby, near};
ghost use Rattle.qam_points.specs.Reception.{received, received_points, value_at};
ghost use Rattle.qam_points.specs.declared.point.Point.{Point};

/// The least squared distance to the points that have a bit at a place is that of one of them, none has a
/// smaller one, and no other number is such.
pub fn near_is_the_least()
    ensures least { (qm amp : ℕ) (y : Point) (i : ℕ) (b : Bit)
        → i < qm → IsNear qm amp y i b (near qm amp y i b) }
    ensures only { (qm amp : ℕ) (y : Point) (i : ℕ) (b : Bit) (m : ℤ) → i < qm → IsNear qm amp y i b m
        → m ≡ near qm amp y i b }
{}

/// With two bits a point each bit is received by itself: its soft value is the amplitude or its negative, and
/// the term of its place, clamped.
pub fn two_bits_are_received_by_themselves()
    ensures { (amp : ℕ) (terms : List ℤ) (bits : List Bit) → 0 < amp → length bits % 2 ≡ 0
        → received 2 amp terms bits ≡ map (value_at amp terms bits) (range_with_len 0 (length bits)) }
{}

/// The points of bits have coordinates from -7 to 7, and those received with an amplitude of up to 127 and
/// terms from -437 to 437 have coordinates from -4000 to 4000.
pub fn coordinates_are_bounded()
    ensures sent { (qm : ℕ) (bits : List Bit) → All IsSmall (mapped qm bits) }
    ensures received { (amp : ℕ) (terms : List ℤ) (points : List Point) → amp ≤ 127 → All (IsWithin 437) terms
        → All IsSmall points → All IsNearby (received_points amp terms points) }
{}

/// There is a point for each `qm` bits, and a soft value for each bit where none is left over.
pub fn each_bit_has_a_value()
    ensures points { (qm : ℕ) (bits : List Bit) → length (mapped qm bits) ≡ length bits / qm }
    ensures values { (qm amp : ℕ) (terms : List ℤ) (bits : List Bit) → length bits % qm ≡ 0
        → length (received qm amp terms bits) ≡ length bits }
{}
