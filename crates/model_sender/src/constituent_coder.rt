//! Laws of the constituent coder (36.212 5.1.3.2.1 and 5.1.3.2.2), and worked examples.
ghost use Rattle.std.specs.Prelude.{◌≡◌, ◌+◌, ℕ, List, [], ◌∷◌, length, replicate};
ghost use Rattle.lte_bits.specs.declared.bit.Bit.{Bit};
ghost use Rattle.lte_bits.specs.declared.bit.Bit.TheVariants.{Zero, One};
ghost use Rattle.model_sender.specs.CheckBits.{digits};
ghost use Rattle.model_sender.specs.CodedStreams.{cells_of, streams};
ghost use Rattle.model_sender.specs.ConstituentCoder.{IsCoder, State, zero_state, values, parities, values_from, parities_from, tail_x, tail_z};
ghost use Rattle.model_sender.specs.Tail.{reached, tail_input, tail_parity, tail_inputs, tail_parities};

/// The two lists satisfy the coder's equations, and no others do.
pub fn coder_is_the_one()
    ensures satisfies { (c : List Bit) → IsCoder c (values c) (parities c) }
    ensures only { (c a z : List Bit) → IsCoder c a z → (a ≡ values c) × (z ≡ parities c) }
{}

/// From each state, the three input bits of the tail lead to state zero, with the parity bits of the tail.
pub fn tail_ends_the_coder()
    ensures ends { (s : State) → reached s (tail_inputs s) ≡ zero_state }
    ensures values { (s : State) → values_from s (tail_inputs s) ≡ Zero ∷ Zero ∷ Zero ∷ [] }
    ensures parities { (s : State) → parities_from s (tail_inputs s) ≡ tail_parities s }
{}

/// The tail after a list is that of the state after it.
pub fn tail_starts_at_the_state()
    ensures input { (c : List Bit) (k : ℕ)
        → tail_x (values c) (length c + k) ≡ tail_input (reached zero_state c) k }
    ensures parity { (c : List Bit) (k : ℕ)
        → tail_z (values c) (length c + k) ≡ tail_parity (reached zero_state c) k }
{}

/// The parity bits of 1 followed by ten zeros.
pub fn impulse()
    ensures { parities (One ∷ replicate 10 Zero) ≡ digits 11 0b11110010111 }
{}

/// The streams of the code block 00 01 86 4C FB of 40 bits.
pub fn worked_streams()
    ensures { streams (record { fill = 0; bits = digits 40 0x0001864CFB }) ≡ record {
      d0 = cells_of (digits 44 0x0001864CFBC);
      d1 = cells_of (digits 44 0x000113038AC);
      d2 = cells_of (digits 44 0x07999A056E4);
    } }
{}
