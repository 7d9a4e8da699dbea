//! One step of the constituent coder (36.212 5.1.3.2.1).
ghost use Rattle.std.specs.Prelude.{◌≡◌};
ghost use Rattle.model_sender.specs.Bits.{plus};
ghost use Rattle.model_sender.specs.ConstituentCoder.{next, parity};
ghost use Rattle.rsc_trellis.specs.Steps.{state_before, input_before};

use crate::state::State;
use lte_bits::Bit;

/// Returns the sum of two bits.
pub(crate) fn plus(a: Bit, b: Bit) -> Bit
    ensures { result ≡ plus a b }
{
    if a == b { Bit::Zero } else { Bit::One }
}

/// Returns the state after the input `u` (36.212 5.1.3.2.1).
pub fn next(s: State, u: Bit) -> State
    ensures { result ≡ next s u }
{
    State {
        a1: plus(plus(u, s.a2), s.a3),
        a2: s.a1,
        a3: s.a2,
    }
}

/// Returns the parity bit z of the input `u` (36.212 5.1.3.2.1).
pub fn parity(s: State, u: Bit) -> Bit
    ensures { result ≡ parity s u }
{
    plus(plus(u, s.a1), s.a2)
}

/// Returns the only predecessor of `s` whose oldest value is `oldest`, and the input that leads from it to
/// `s`.
pub fn previous(s: State, oldest: Bit) -> (State, Bit)
    ensures oldest { result.0.a3 ≡ oldest }
    ensures leads { next result.0 result.1 ≡ s }
    ensures value { result ≡ (state_before s oldest, input_before s oldest) }
{
    (
        State {
            a1: s.a2,
            a2: s.a3,
            a3: oldest,
        },
        plus(plus(s.a1, s.a3), oldest),
    )
}
