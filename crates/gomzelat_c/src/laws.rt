//! Laws of receptions call by call. The function computes nothing: its contract is the law.
ghost use Rattle.std.specs.Prelude.{◌≡◌, ℕ, ℤ, ◌≤◌, List};
ghost use Rattle.gomzelat_c.specs.Receiving.{received};
ghost use Rattle.gomzelat_c.specs.Rounds.{by_calls, fresh};
ghost use Rattle.gomzelat_c.specs.declared.receiver.Receiver.{Receiver};
ghost use Rattle.gomzelat_c.specs.declared.transmission.Transmission.{Transmission};

/// Where each transmission is combined by a call and decoded by another, until all checks hold, the outcome is
/// that of one call of `gomzelat_receive` with all of them.
pub fn calls_come_to_the_reception()
    ensures { (bytes : ℕ) (r : Receiver) (ts : List Transmission) (values : List ℤ) →
        1 ≤ bytes → bytes ≤ 18722 → 1 ≤ r.limit → r.limit ≤ 16 →
        by_calls bytes r (fresh bytes) 0 ts values ≡ received bytes ts r values }
{}
