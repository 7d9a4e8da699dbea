//! Interleavers with constant parameters.
ghost use Rattle.std.specs.Prelude.{◌≡◌, ◌==◌, ◌↔◌, IsSome, find, length};
ghost use Rattle.model_sender.specs.Interleaver.{Lawful, pi};
ghost use Rattle.qpp_table.specs.Groups.{addresses_of};

use crate::interleaver::Interleaver;
use crate::modular::{is_nilpotent, is_unit, product_modulo};
use crate::walk::Walk;
use model_sender::ROWS;

/// The interleaver Pi(i) = (F1 i + F2 i^2) mod K, of any lawful parameters.
#[derive(Clone, Copy, Debug, PartialEq, Eq)]
pub struct FixedQpp<const K: usize, const F1: usize, const F2: usize> {
    pub ghost lawful: { ∥ Lawful K F1 F2 ∥₁ },
}

impl<const K: usize, const F1: usize, const F2: usize> FixedQpp<K, F1, F2> {
    /// Returns the interleaver, or `None` exactly if its parameters aren't lawful: K is at least 1, F1 is a
    /// unit modulo K, and F2^7 is 0 modulo K.
    pub fn new() -> Option<Self>
        ensures { IsSome result ↔ Lawful K F1 F2 }
    {
        if K >= 1 && is_unit(K, F1) && is_nilpotent(K, F2) {
            Some(FixedQpp {})
        } else {
            None
        }
    }

    /// Writes the interleaver addresses of a block to `out`, where the table's row of size K has these
    /// factors.
    pub(crate) fn fill(out: &mut [u16])
        requires row { find (λ r. r.0 == K) ROWS ≡ Some (record { 0 = K; 1 = F1; 2 = F2 }) }
        requires room { length out.old ≡ K }
        ensures { out.new ≡ addresses_of K }
    {
        let mut walk = Walk::new(K, F1, F2);
        for address in out.iter_mut() {
            *address = walk.place as u16;
            walk = walk.next();
        }
    }
}

impl<const K: usize, const F1: usize, const F2: usize> Interleaver for FixedQpp<K, F1, F2> {
    ghost use Rattle.model_sender.specs.InterleaverLaws.{pi_remainder};
    ghost use Rattle.qpp_table.specs.LawfulLaws.{lawful-below, lawful_differs};

    ghost size_of = { λ _. K };

    ghost place_of = { λ _ i. pi K F1 F2 i };

    ghost below = { λ _ i h. lawful-below K F1 F2 i h };

    ghost apart = { λ q i j. lawful_differs K F1 F2 i j q.lawful };

    ghost kept = { λ _ i w d _. pi_remainder K F1 F2 w i d };

    fn size(&self) -> usize {
        K
    }

    fn at(&self, i: usize) -> usize {
        let linear = product_modulo(K, F1, i);
        let square = product_modulo(K, product_modulo(K, F2, i), i);
        ((linear as u128 + square as u128) % K as u128) as usize
    }
}
