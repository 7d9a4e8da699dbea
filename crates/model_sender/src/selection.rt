//! The laws of bit selection.
ghost use Rattle.std.specs.Prelude.{◌≡◌, ℕ, ◌+◌, ◌*◌, ◌<◌, ◌≤◌, true, List, [], ◌∷◌, length, map, slice_index_or, sum_by};
ghost use Rattle.std.specs.List.{range_with_len};
ghost use Prim.Native.Nat.{◌∣◌};
ghost use Rattle.lte_bits.specs.declared.block.Streams.{Streams};
ghost use Rattle.model_sender.specs.CheckBits.{digits};
ghost use Rattle.model_sender.specs.Segmentation.{Plan, plan_of, size, fill};
ghost use Rattle.model_sender.specs.CodedStreams.{cells_of};
ghost use Rattle.model_sender.specs.CircularBuffer.{Fits, Match, buffer_length, piece_length, rows_of, start};
ghost use Rattle.model_sender.specs.Selection.{holds_bit, bits_from, sent};

/// A buffer that keeps all of v0 has a bit to send: V isn't empty.
pub fn some_bit_is_kept()
    ensures { (k fill n start : ℕ) → fill ≤ k → 32 * rows_of k ≤ n →
        0 < length (bits_from (holds_bit k fill) start n) }
{}

/// The same under `Fits`, for each block of a plan, from any place on.
pub fn some_bit_is_kept_where_it_fits()
    ensures { (plan : Plan) (m : Match) (r start : ℕ) →
        fill plan r ≤ size plan r → size plan r ≤ plan.k_plus → Fits m plan →
        0 < length (bits_from (holds_bit (size plan r) (fill plan r)) start
        (buffer_length m.limit plan.c (size plan r))) }
{}

/// The blocks of a transport block send G bits together.
pub fn pieces_add_up()
    ensures { (m : Match) (c : ℕ) → 1 ≤ c → 1 ≤ m.nl * m.qm → m.nl * m.qm ∣ m.g →
        sum_by (piece_length m c) (range_with_len 0 c) ≡ m.g }
{}

/// Where the four redundancy versions start in the full buffer of a block of 40 bits.
pub fn starts_of_forty()
    ensures { map (start 40 192) (0 ∷ 1 ∷ 2 ∷ 3 ∷ []) ≡ 4 ∷ 52 ∷ 100 ∷ 148 ∷ [] }
{}

/// The first eight bits that each redundancy version sends of the code block 00 01 86 4C FB, whose
/// streams are 000186 4CFBC, 000113 038AC and 07999A 056E4.
pub fn worked_selections()
    ensures { map
        (λ rv. sent (plan_of 2) (record { qm = 2; nl = 1; g = 8; limit = None }) (record {
          d0 = cells_of (digits 44 0x0001864CFBC);
          d1 = cells_of (digits 44 0x000113038AC);
          d2 = cells_of (digits 44 0x07999A056E4);
        }) 0 rv)
        (0 ∷ 1 ∷ 2 ∷ 3 ∷ [])
        ≡ map (digits 8) (0x34 ∷ 0x24 ∷ 0xE6 ∷ 0x10 ∷ []) }
{}
