//! Bits, and the cells of coded streams.
ghost use Rattle.lte_bits.specs.Bits.{digit, cell_of};
ghost use Rattle.std.specs.Prelude.{◌≡◌, ◌≤◌};

/// A bit.
#[derive(Clone, Copy, Debug, PartialEq, Eq, Hash)]
pub enum Bit {
    Zero,
    One,
}

/// A cell of a coded stream: a bit, or `Null` at a filler bit (36.212 5.1.3.2.1).
#[derive(Clone, Copy, Debug, PartialEq, Eq, Hash)]
pub enum Cell {
    Zero,
    One,
    Null,
}

impl From<Bit> for Cell {
    ghost from_gives = { λ bit cell. cell ≡ cell_of bit };

    fn from(bit: Bit) -> Cell {
        match bit {
            Bit::Zero => Cell::Zero,
            Bit::One => Cell::One,
        }
    }
}

impl From<Bit> for u8 {
    ghost from_gives = { λ bit number. number ≡ digit bit };

    fn from(bit: Bit) -> u8
        ensures value { result ≡ digit bit }
        ensures small { result ≤ 1 }
    {
        match bit {
            Bit::Zero => 0,
            Bit::One => 1,
        }
    }
}

impl From<Bit> for u32 {
    ghost from_gives = { λ bit number. number ≡ digit bit };

    fn from(bit: Bit) -> u32
        ensures value { result ≡ digit bit }
        ensures small { result ≤ 1 }
    {
        u32::from(u8::from(bit))
    }
}
