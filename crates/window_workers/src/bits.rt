//! The decided bits of joined cells.
ghost use Rattle.std.specs.Prelude.{◌≡◌, ◌≤◌, length};
ghost use Rattle.model_receiver.specs.Decoding.{decided_bits};
ghost use Rattle.cell_shares.specs.Shares.{cell_values};

use cell_shares::Cells;
use half_iteration::decided;
use lte_bits::Bit;
use window_decode::Ext;

/// Writes the decided bits of the cells of all places, with the first `fill` of them 0.
pub(crate) fn decide(cells: &Cells<Ext>, fill: usize, bits: &mut [Bit])
    requires fill { fill ≤ length (cell_values cells.now) }
    requires long { length bits.old ≡ length (cell_values cells.now) }
    ensures { bits.new ≡ decided_bits fill (cell_values cells.now) }
{
    for (i, bit) in bits.iter_mut().enumerate() {
        let cell = cells.get(i);
        *bit = decided(i < fill, cell.one);
    }
}
