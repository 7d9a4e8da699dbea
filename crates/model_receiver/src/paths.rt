//! Laws of the best path metrics. Each function computes nothing: its contract is the law.
ghost use Rattle.std.specs.Prelude.{◌≡◌, ◌<◌, ℕ, ℤ};
ghost use Rattle.lte_bits.specs.declared.bit.Bit.{Bit};
ghost use Rattle.model_sender.specs.ConstituentCoder.{State};
ghost use Rattle.model_receiver.specs.Paths.{Window, width, IsBest, IsBestTo, IsBestFrom};
ghost use Rattle.model_receiver.specs.Paths.{best, best_to, best_from};

/// The functions give the greatest path metrics.
pub fn best_is_the_greatest()
    ensures best { (w : Window) (b : Bit) (j : ℕ) → j < width w → IsBest w b j (best w b j) }
    ensures to { (w : Window) (s : State) → IsBestTo w s (best_to w s) }
    ensures from { (w : Window) (s : State) → IsBestFrom w s (best_from w s) }
{}

/// The greatest path metric of each kind is unique.
pub fn the_greatest_is_one()
    ensures best { (w : Window) (b : Bit) (j : ℕ) (x : ℤ) → j < width w → IsBest w b j x
        → x ≡ best w b j }
    ensures to { (w : Window) (s : State) (x : ℤ) → IsBestTo w s x → x ≡ best_to w s }
    ensures from { (w : Window) (s : State) (x : ℤ) → IsBestFrom w s x → x ≡ best_from w s }
{}
