//! A window as a strip over lists.
ghost use Rattle.std.specs.Prelude.{◌≡◌, ◌<◌, ℕ, length, map, slice_index};
ghost use Rattle.half_iteration.specs.Views.{AreWhole};
ghost use Rattle.model_receiver.specs.HalfIteration.{positions, order, parity_at, systematic_at};

use half_iteration::{Views, part};
use lte_bits::{List, Soft};
use window_decode::{Ext, Strip};

/// The values at a window's positions, the place of each position, and the cells of all places.
#[derive(Drop)]
pub struct ListStrip<'a> {
    pub systematic: &'a [Soft],
    pub parity: &'a [Soft],
    pub places: &'a [u16],
    pub cells: Vec<Ext>,
    ghost systematic_long: { length systematic.now ≡ length places.now },
    ghost parity_long: { length parity.now ≡ length places.now },
    ghost below: { (j : ℕ) → j < length places.now → slice_index places.now j < length cells.items },
    ghost apart: { (i j : ℕ) → i < length places.now → j < length places.now
        → slice_index places.now i ≡ slice_index places.now j → i ≡ j },
}

impl Strip for ListStrip<'_> {
    ghost use Rattle.serial_decode.specs.Strips.{cells_at, elsewhere};

    /// The places of the window, and the cells of other places.
    type Rest = (List<u16>, List<Ext>);

    ghost systematic = { λ s. s.systematic.now };

    ghost parity = { λ s. s.parity.now };

    ghost cells = { λ s. cells_at s.places.now s.cells.items };

    ghost rest = { λ s. (s.places.now, elsewhere s.places.now s.cells.items) };

    fn width(&self) -> usize {
        self.places.len()
    }

    fn sys(&self, j: usize) -> i16 {
        i16::from(self.systematic[j].value())
    }

    fn par(&self, j: usize) -> i16 {
        i16::from(self.parity[j].value())
    }

    fn cell(&self, j: usize) -> Ext {
        self.cells[usize::from(self.places[j])]
    }

    fn set_cell(&mut self, j: usize, v: Ext) {
        let place = usize::from(self.places[j]);
        self.cells[place] = v;
    }
}

/// Returns window `t` of half `h` as a strip; `t` is below the number of windows, and there are K cells.
pub fn strip_of<'a>(views: &'a Views<'_>, h: usize, t: usize, cells: Vec<Ext>) -> ListStrip<'a>
    requires window { t < views.now.shape.windows }
    requires cells { length cells.items ≡ views.now.shape.k }
    ensures whole { AreWhole views.now.shape }
    ensures cells { result.cells.items ≡ cells.items }
    ensures places { result.places.now
        ≡ map (order views.now.shape.k h) (positions views.now.shape t) }
    ensures systematic { result.systematic.now
        ≡ map (systematic_at views.now.streams.now views.now.shape.k h) (positions views.now.shape t) }
    ensures parity { result.parity.now
        ≡ map (parity_at views.now.streams.now h) (positions views.now.shape t) }
{
    let width = views.width();
    let from = t * width;
    ListStrip {
        systematic: part(views.systematic(h), from, width),
        parity: part(views.parity(h), from, width),
        places: part(views.places(h), from, width),
        cells,
    }
}
