//! States of the constituent coder.
ghost use Rattle.std.specs.Prelude.{◌≡◌, ◌<◌, ◌↔◌, if◌then◌else◌, IfSome, IsNone};

use lte_bits::Bit;
use std::marker::Model;

/// A state of the constituent coder, a number 0 to 7: the last three values of the register,
/// 4 a(k-1) + 2 a(k-2) + a(k-3) (36.212 5.1.3.2.1).
#[derive(Clone, Copy, Debug, PartialEq, Eq, Hash)]
pub struct State {
    pub(crate) a1: Bit,
    pub(crate) a2: Bit,
    pub(crate) a3: Bit,
}

impl Model for State {
    ghost use Rattle.model_sender.specs.ConstituentCoder.{State as Register};

    ghost Value = { Register };

    ghost view = { λ s. record { a1 = s.a1; a2 = s.a2; a3 = s.a3 } };

    ghost inverse = { λ s. record { a1 = s.a1; a2 = s.a2; a3 = s.a3 } };
}

/// Returns a bit that is `One` where the test holds.
fn bit(is_one: bool) -> Bit
    ensures { result ≡ (if is_one then Bit.One else Bit.Zero) }
{
    if is_one { Bit::One } else { Bit::Zero }
}

impl State {
    ghost use Rattle.model_sender.specs.ConstituentCoder.{zero_state};
    ghost use Rattle.model_sender.specs.ConstituentCoder.{state_number};

    /// The state in which the coder starts and ends.
    pub const ZERO: State = State {
        a1: Bit::Zero,
        a2: Bit::Zero,
        a3: Bit::Zero,
    };

    /// Returns the state with the number 4 a(k-1) + 2 a(k-2) + a(k-3), 0 to 7, and `None` exactly above 7.
    pub fn new(s: u8) -> Option<State>
        ensures none { IsNone result ↔ (7 < s) }
        ensures number { IfSome result (λ state. state_number state ≡ s) }
    {
        if s > 7 {
            return None;
        }
        Some(State {
            a1: bit(s >= 4),
            a2: bit(s % 4 >= 2),
            a3: bit(s % 2 == 1),
        })
    }

    /// Returns the state with these last three values of the register, the newest first.
    pub const fn from_bits(a1: Bit, a2: Bit, a3: Bit) -> State
        ensures { result ≡ (record { a1 = a1; a2 = a2; a3 = a3 }) }
    {
        State { a1, a2, a3 }
    }

    /// Returns the state's number, 0 to 7.
    pub fn number(self) -> u8
        ensures value { result ≡ state_number self }
        ensures small { result < 8 }
    {
        4 * u8::from(self.a1) + 2 * u8::from(self.a2) + u8::from(self.a3)
    }
}
