//! Reachability of states.
ghost use Rattle.std.specs.Prelude.{◌≡◌, List, length};
ghost use Rattle.lte_bits.specs.declared.bit.Bit.{Bit};
ghost use Rattle.model_sender.specs.ConstituentCoder.{State};
ghost use Rattle.model_sender.specs.Tail.{reached};

/// Three inputs lead from each state to each state. The function computes nothing: its contract is
/// the law.
pub fn three_inputs_lead_anywhere()
    ensures { (s t : State) → (us : List Bit) × (length us ≡ 3) × (reached s us ≡ t) }
{}
