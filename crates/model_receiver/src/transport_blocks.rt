//! Laws of a transport block's reception. Each function computes nothing: its contract is the law.
ghost use Rattle.std.specs.Prelude.{◌≡◌, ℕ, ◌*◌, ◌≤◌, List};
ghost use Prim.Native.Nat.{◌∣◌};
ghost use Rattle.model_sender.specs.Segmentation.{Plan};
ghost use Rattle.model_receiver.specs.SoftCells.{Reception};
ghost use Rattle.model_receiver.specs.Limits.{DecoderLimits};
ghost use Rattle.model_receiver.specs.TransportBlocks.{delivering_try, outcome, outcome_in, window_count};

/// The number of windows is the greatest up to the limit that divides the block into windows of at least 8
/// positions.
pub fn window_counts_are_the_greatest()
    ensures { (k m d : ℕ) → 1 ≤ d → d ∣ k → 8 * d ≤ k → d ≤ m →
        ((n : ℕ) → n ∣ k → 8 * n ≤ k → n ≤ m → n ≤ d) → window_count k m ≡ d }
{}

/// The outcome is that of the first try that delivers, by its number; where there is none, of the last.
pub fn the_first_delivery_decides()
    ensures { (plan : Plan) (limits : DecoderLimits) (xs : List Reception) →
        outcome plan limits xs ≡ outcome_in plan limits xs (delivering_try plan limits xs) }
{}

/// Worked: blocks of 40, 3072 and 6144 bits, for at most 8, 8 and 64 windows.
pub fn worked_window_counts()
    ensures smallest { window_count 40 8 ≡ 5 }
    ensures middle { window_count 3072 8 ≡ 8 }
    ensures greatest { window_count 6144 64 ≡ 64 }
{}
