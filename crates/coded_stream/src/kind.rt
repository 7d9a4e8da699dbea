//! Hard bits or soft values.
ghost use Rattle.std.specs.Prelude.{◌≡◌};
ghost use Rattle.coded_stream.specs.Header.{kind_code, kind_of};
ghost use Rattle.coded_stream.specs.Opening.{is_wanted};

/// Whether the transmissions of a stream are hard bits or soft values.
#[derive(Clone, Copy, Debug, PartialEq, Eq, Hash)]
pub enum Kind {
    /// Bits, packed.
    Hard,
    /// Soft values, a byte each.
    Soft,
}

/// Which streams are wanted.
#[derive(Clone, Copy, Debug, PartialEq, Eq, Hash)]
pub enum Want {
    /// Those of bits.
    Hard,
    /// Those of soft values.
    Soft,
    /// Those of either kind.
    Any,
}

impl Kind {
    /// Returns the kind as the header has it.
    pub(crate) fn code(self) -> u8
        ensures { result ≡ kind_code self }
    {
        match self {
            Kind::Hard => 0,
            Kind::Soft => 1,
        }
    }

    /// Returns the kind of a code.
    pub(crate) fn of(code: u8) -> Kind
        ensures { result ≡ kind_of code }
    {
        if code == 0 { Kind::Hard } else { Kind::Soft }
    }
}

impl Want {
    /// Returns whether a code is that of a wanted kind.
    pub(crate) fn takes(self, code: u8) -> bool
        ensures { result ≡ is_wanted self code }
    {
        match self {
            Want::Hard => code == 0,
            Want::Soft => code == 1,
            Want::Any => code == 0 || code == 1,
        }
    }
}
