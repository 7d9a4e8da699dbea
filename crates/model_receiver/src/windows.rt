//! Worked windows, computed by the checker. Each function computes nothing: its contract is the values.
ghost use Rattle.std.specs.Prelude.{◌≡◌, pos, neg_ℤ, true, false, [], ◌∷◌};
ghost use Rattle.lte_bits.specs.declared.bit.Bit.TheVariants.{Zero, One};
ghost use Rattle.model_receiver.specs.Borders.{known, number_for, state, tail, unknown};
ghost use Rattle.model_receiver.specs.Windows.{cell_from, new_cells, scaled, window_between, zero_cell};

/// Three quarters of an extrinsic value are rounded toward zero, and then clamped.
pub fn worked_scaling()
    ensures rounded { (scaled (pos 7) ≡ pos 5) × (scaled (neg_ℤ (pos 7)) ≡ neg_ℤ (pos 5)) }
    ensures clamped { (scaled (pos 700) ≡ pos 511) × (scaled (neg_ℤ (pos 700)) ≡ neg_ℤ (pos 511)) }
{}

/// A sum of 0 decides 0 and one of -1 decides 1. The extrinsic value in it isn't scaled: 7 and -6 decide 0.
pub fn worked_decisions()
    ensures tie { (cell_from (pos 3) (neg_ℤ (pos 2)) (neg_ℤ (pos 1))).one ≡ false }
    ensures below { (cell_from (pos 3) (neg_ℤ (pos 2)) (neg_ℤ (pos 2))).one ≡ true }
    ensures unscaled { (cell_from (pos 7) (neg_ℤ (pos 6)) (pos 0)).one ≡ false }
{}

/// Two positions from a known start to an unknown end, where all values are 0 but the first parity value,
/// -7: the first cell becomes -5 with the bit 1, and the second 0 with the bit 0.
pub fn worked_window()
    ensures { new_cells (window_between known unknown
        (pos 0 ∷ pos 0 ∷ []) (neg_ℤ (pos 7) ∷ pos 0 ∷ []) (zero_cell ∷ zero_cell ∷ []))
        ≡ record { value = neg_ℤ (pos 5); one = true } ∷ zero_cell ∷ [] }
{}

/// The tail from state 1 has the input bits 1, 0, 0 and the parity bits 1, 0, 0, and that from state 0 has
/// zeros alone: 2 + 4 + 16 + 32 less 63.
pub fn worked_tail()
    ensures { number_for (tail (pos 1 ∷ pos 2 ∷ pos 4 ∷ []) (pos 8 ∷ pos 16 ∷ pos 32 ∷ []))
        (state Zero Zero One) ≡ neg_ℤ (pos 9) }
{}
