//! A window as a strip over its share.
ghost use Rattle.std.specs.Prelude.{◌≡◌, length};
ghost use Rattle.cell_shares.specs.Deal.{share_places};
ghost use Rattle.cell_shares.specs.Shares.{share_label, share_number, share_order, share_values};

use cell_shares::{CellsName, Order, Share};
use lte_bits::Soft;
use window_decode::{Ext, Strip};

/// The values and the places of a window's positions, and its share of the cells.
pub(crate) struct ShareStrip<'a> {
    pub(crate) systematic: &'a [Soft],
    pub(crate) parity: &'a [Soft],
    pub(crate) places: &'a [u16],
    pub(crate) share: Share<Ext>,
    ghost systematic_long: { length systematic.now ≡ length (share_values share) },
    ghost parity_long: { length parity.now ≡ length (share_values share) },
    ghost places_long: { length places.now ≡ length (share_values share) },
    ghost in_place: { places.now
        ≡ share_places (share_order share) (length (share_values share)) (share_number share) },
}

impl Strip for ShareStrip<'_> {
    /// The name of the cells, and the order and the number of the share.
    type Rest = (CellsName, (Order, usize));

    ghost systematic = { λ s. s.systematic.now };

    ghost parity = { λ s. s.parity.now };

    ghost cells = { λ s. share_values s.share };

    ghost rest = { λ s. share_label s.share };

    fn width(&self) -> usize {
        self.systematic.len()
    }

    fn sys(&self, j: usize) -> i16 {
        i16::from(self.systematic[j].value())
    }

    fn par(&self, j: usize) -> i16 {
        i16::from(self.parity[j].value())
    }

    fn cell(&self, j: usize) -> Ext {
        let place = usize::from(self.places[j]);
        self.share.get_at(j, place)
    }

    fn set_cell(&mut self, j: usize, v: Ext) {
        let place = usize::from(self.places[j]);
        self.share.set_at(j, place, v);
    }
}
