//! Extrinsic cells.
ghost use Rattle.std.specs.Prelude.{◌≡◌, ℤ, ◌+ℤ◌};
ghost use Rattle.lte_bits.specs.Softs.{IsWithin};
ghost use Rattle.model_receiver.specs.Windows.{cell_from};

use std::marker::Model;

/// An extrinsic cell, from -511 to 511, and whether the decided bit of its place is 1.
#[derive(Clone, Copy, Debug, PartialEq, Eq)]
pub struct Ext {
    pub value: i16,
    pub one: bool,
}

impl Model for Ext {
    ghost use Rattle.lte_bits.specs.Softs.{IsWithin};
    ghost use Rattle.model_receiver.specs.Windows.{Extrinsic};

    ghost Value = { Extrinsic };

    ghost view = { λ e. record { value = e.value; one = e.one } };

    ghost invariant = { λ e. IsWithin 511 e.value };

    ghost inverse = { λ e. record { value = e.value; one = e.one } };
}

impl Ext {
    ghost use Rattle.model_receiver.specs.Windows.{zero_cell};

    /// The cell before the first half iteration.
    pub const ZERO: Ext = Ext {
        value: 0,
        one: false,
    };

    /// Returns the new cell of a position with extrinsic value `x`, where `own` is the sum of its systematic
    /// value and old cell.
    #[inline]
    pub(crate) fn from_extrinsic(x: i32, own: i16) -> Ext
        requires x { IsWithin 25818 x }
        requires own { IsWithin 638 own }
        ensures { (s c : ℤ) → own ≡ s +ℤ c → result ≡ cell_from x s c }
    {
        // 682 * 3 / 4 is 511.
        let scaled = x.clamp(-682, 682) * 3 / 4;
        Ext {
            value: scaled as i16,
            one: x + i32::from(own) < 0,
        }
    }
}
