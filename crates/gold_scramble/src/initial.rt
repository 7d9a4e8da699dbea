//! The initial value of a transmission's scrambling sequence.
ghost use Rattle.std.specs.Prelude.{◌≡◌, ◌<◌, ◌^◌};
ghost use Rattle.std.specs.Option.{SomeIff};
ghost use Rattle.gold_scramble.specs.Initial.{c_init, IsTransmission};

use std::marker::Model;

/// The initial value c_init of a transmission's sequence (36.211 6.3.1, 5.3.1), below 2^31.
#[derive(Clone, Copy, Debug, PartialEq, Eq, Hash)]
pub struct Init {
    value: u32,
}

impl Model for Init {
    ghost use Rattle.std.specs.Prelude.{ℕ, ◌<◌, ◌^◌};

    ghost Value = { ℕ };

    ghost view = { λ i. i.value };

    ghost invariant = { λ i. i.value < 2 ^ 31 };

    ghost inverse = { λ n. record { value = n } };
}

impl Init {
    /// Returns c_init (36.211 6.3.1) for a terminal's identity `rnti`, a codeword `q`, 0 or 1, a slot, 0 to
    /// 19, and a cell, 0 to 503; `None` for any other. With `q` 0 it is also the one for the uplink shared
    /// channel (5.3.1).
    pub fn new(rnti: u16, q: u8, slot: u8, cell: u16) -> Option<Init>
        ensures { SomeIff result (IsTransmission q slot cell) (c_init rnti q slot cell) }
    {
        if q > 1 || slot > 19 || cell > 503 {
            return None;
        }
        let value = (u32::from(rnti) << 14)
            + (u32::from(q) << 13)
            + (u32::from(slot / 2) << 9)
            + u32::from(cell);
        Some(Init { value })
    }

    /// Returns the number.
    pub fn value(&self) -> u32
        ensures value { result ≡ self.now }
        ensures small { result < 2 ^ 31 }
    {
        self.value
    }
}
