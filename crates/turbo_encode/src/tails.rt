//! The tails of the three streams (36.212 5.1.3.2.2).
ghost use Rattle.std.specs.Prelude.{◌≡◌, [], ◌∷◌};
ghost use Rattle.model_sender.specs.Tail.{tail_input, tail_parity};

use lte_bits::Bit;
use rsc_trellis::{State, tail_path};

/// The number of bits that the tail adds to a stream.
pub const TAIL: usize = 4;

/// The tail's bits of each stream.
#[derive(Clone, Copy)]
pub struct Tails {
    pub d0: [Bit; TAIL],
    pub d1: [Bit; TAIL],
    pub d2: [Bit; TAIL],
}

impl Tails {
    /// Returns the tails of the coders with these final states.
    pub fn new(first: State, second: State) -> Tails
        ensures d0 { result.d0 ≡ tail_input first 0 ∷ tail_parity first 1
            ∷ tail_input second 0 ∷ tail_parity second 1 ∷ [] }
        ensures d1 { result.d1 ≡ tail_parity first 0 ∷ tail_input first 2
            ∷ tail_parity second 0 ∷ tail_input second 2 ∷ [] }
        ensures d2 { result.d2 ≡ tail_input first 1 ∷ tail_parity first 2
            ∷ tail_input second 1 ∷ tail_parity second 2 ∷ [] }
    {
        let [(x0, z0), (x1, z1), (x2, z2)] = tail_path(first);
        let [(y0, w0), (y1, w1), (y2, w2)] = tail_path(second);
        Tails {
            d0: [x0, z1, y0, w1],
            d1: [z0, x2, w0, y2],
            d2: [x1, z2, y1, w2],
        }
    }
}
