//! A window as the halves of one order read it.
ghost use Rattle.std.specs.Prelude.{◌≡◌, ◌%◌, ◌==◌, ◌<◌, if◌then◌else◌, IfOk, map};
ghost use Rattle.model_receiver.specs.HalfIteration.{order, parity_at, positions, systematic_at};

use half_iteration::{Views, part};
use lte_bits::{NoMemory, Soft};
use std::alloc::Global;

/// The systematic value, the parity value and the place of each position of a window.
#[derive(Drop)]
pub struct WindowView {
    pub(crate) systematic: Vec<Soft>,
    pub(crate) parity: Vec<Soft>,
    pub(crate) places: Vec<u16>,
}

impl WindowView {
    /// Returns window `t`, below the number of windows, in the order of half `h`.
    pub(crate) fn new(
        alloc: Global,
        views: &Views<'_>,
        h: usize,
        t: usize,
    ) -> Result<WindowView, NoMemory>
        requires { t < views.now.shape.windows }
        ensures systematic { IfOk result (λ view. view.systematic.items
            ≡ map (systematic_at views.now.streams.now views.now.shape.k h) (positions views.now.shape t)) }
        ensures parity { IfOk result (λ view. view.parity.items
            ≡ map (parity_at views.now.streams.now h) (positions views.now.shape t)) }
        ensures places { IfOk result (λ view. view.places.items
            ≡ map (order views.now.shape.k h) (positions views.now.shape t)) }
    {
        let width = views.width();
        let from = t * width;
        let systematic = Vec::from_slice(alloc, part(views.systematic(h), from, width))?;
        let parity = Vec::from_slice(alloc, part(views.parity(h), from, width))?;
        let places = Vec::from_slice(alloc, part(views.places(h), from, width))?;
        Ok(WindowView {
            systematic,
            parity,
            places,
        })
    }
}

/// Returns the view of the order in which half `half` takes the cells.
pub(crate) fn of_half<'a>(
    half: u32,
    natural: &'a WindowView,
    interleaved: &'a WindowView,
) -> &'a WindowView
    ensures { result.now ≡ (if half % 2 == 0 then natural.now else interleaved.now) }
{
    if half % 2 == 0 { natural } else { interleaved }
}
