//! The numbers of an operand.
ghost use Rattle.std.specs.Prelude.{◌≡◌, ◌<◌, ◌≤◌, [], ◌∷◌, ◌++◌, length, slice_index};

use arrayvec::ArrayVec;
use std::marker::Model;

/// At most eight numbers.
#[derive(Debug, Drop)]
pub struct Numbers {
    held: ArrayVec<u64, 8>,
}

impl Model for Numbers {
    ghost use Rattle.std.specs.Prelude.{List, ℕ};

    ghost Value = { List ℕ };

    ghost view = { λ n. n.held.items };
}

impl Numbers {
    pub fn new() -> Self
        ensures { result ≡ [] }
    {
        Numbers {
            held: ArrayVec::new(),
        }
    }

    pub fn push(&mut self, number: u64)
        requires { length self.old < 8 }
        ensures { self.new ≡ self.old ++ number ∷ [] }
    {
        self.held.push(number);
    }

    pub fn len(&self) -> usize
        ensures { result ≡ length self.now }
    {
        self.held.len()
    }

    pub fn at(&self, i: usize) -> u64
        requires { i < length self.now }
        ensures { result ≡ slice_index self.now i }
    {
        self.held[i]
    }
}
