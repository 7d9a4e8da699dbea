//! The decided bits, and their check.
ghost use Rattle.std.specs.Prelude.{◌≡◌, ◌≤◌, ◌↔◌, IsTrue, if◌then◌else◌, length};
ghost use Rattle.model_sender.specs.CheckBits.{IsMultiple};
ghost use Rattle.model_receiver.specs.Decoding.{decided_bits, generator};

use block_crc::{checks_a, checks_b};
use lte_bits::Bit;
use window_decode::{CheckKind, Ext};

/// Returns the bit of a place: 0 at a filler.
pub fn decided(filler: bool, one: bool) -> Bit
    ensures { result ≡ if filler then Bit.Zero else if one then Bit.One else Bit.Zero }
{
    if one && !filler { Bit::One } else { Bit::Zero }
}

/// Writes the decided bits of the cells of all places, with the first `fill` of them 0.
pub fn decide(cells: &[Ext], fill: usize, bits: &mut [Bit])
    requires fill { fill ≤ length cells.now }
    requires long { length bits.old ≡ length cells.now }
    ensures { bits.new ≡ decided_bits fill cells.now }
{
    for (i, bit) in bits.iter_mut().enumerate() {
        let cell = cells[i];
        *bit = decided(i < fill, cell.one);
    }
}

/// Returns whether a check holds over all bits.
pub fn holds(kind: CheckKind, bits: &[Bit]) -> bool
    ensures { IsTrue result ↔ IsMultiple (generator kind) bits.now }
{
    match kind {
        CheckKind::A => checks_a(bits),
        CheckKind::B => checks_b(bits),
    }
}
