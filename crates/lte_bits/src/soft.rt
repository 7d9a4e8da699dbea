//! Soft values of coded bits.
ghost use Rattle.std.specs.Prelude.{◌≡◌, ◌+ℤ◌};
ghost use Rattle.lte_bits.specs.Softs.{clamped, IsWithin};

use std::marker::Model;

/// A soft bit (LLR), -127 to 127: positive if 0 is likelier, negative if 1 is.
#[derive(Clone, Copy, Debug, PartialEq, Eq, Hash)]
pub struct Soft {
    value: i8,
}

impl Model for Soft {
    ghost use Rattle.std.specs.Prelude.{ℤ};
    ghost use Rattle.lte_bits.specs.Softs.{IsWithin};

    ghost Value = { ℤ };

    ghost view = { λ s. s.value };

    ghost invariant = { λ s. IsWithin 127 s.value };

    ghost inverse = { λ z. record { value = z } };
}

impl Soft {
    /// An erasure (LLR 0).
    pub const ZERO: Soft = Soft { value: 0 };

    /// Returns the soft value of `v`, where -128 is taken as -127.
    pub fn from_i8(v: i8) -> Soft
        ensures { result ≡ clamped 127 v }
    {
        Soft { value: v.max(-127) }
    }

    /// Returns the number, -127 to 127.
    pub fn value(self) -> i8
        ensures value { result ≡ self }
        ensures range { IsWithin 127 result }
    {
        self.value
    }

    /// Returns the sum, clamped to -127 to 127.
    pub fn add_sat(self, other: Soft) -> Soft
        ensures { result ≡ clamped 127 (self +ℤ other) }
    {
        let sum = i16::from(self.value) + i16::from(other.value);
        Soft {
            value: sum.clamp(-127, 127) as i8,
        }
    }
}
