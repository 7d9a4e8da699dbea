//! The tail of the constituent coder (36.212 5.1.3.2.2).
ghost use Rattle.std.specs.Prelude.{◌≡◌, map};
ghost use Rattle.model_sender.specs.ConstituentCoder.{zero_state, parities_from};
ghost use Rattle.model_sender.specs.Tail.{reached, tail_inputs, tail_parities};

use crate::state::State;
use crate::step::plus;
use lte_bits::Bit;

/// Returns the three pairs x, z of the tail from a state (36.212 5.1.3.2.2): x(k) = a(k-2) + a(k-3) and
/// z(k) = a(k-1) + a(k-3), where a(k) is 0. They lead to state 0.
pub fn tail_path(s: State) -> [(Bit, Bit); 3]
    ensures inputs { map (λ p. p.0) result ≡ tail_inputs s }
    ensures parities { map (λ p. p.1) result ≡ tail_parities s }
    ensures coded { parities_from s (map (λ p. p.0) result) ≡ map (λ p. p.1) result }
    ensures ends { reached s (map (λ p. p.0) result) ≡ zero_state }
{
    [
        (plus(s.a2, s.a3), plus(s.a1, s.a3)),
        (plus(s.a1, s.a2), s.a2),
        (s.a1, s.a1),
    ]
}
