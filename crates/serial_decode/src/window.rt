//! One window of a half iteration.
ghost use Rattle.std.specs.Prelude.{◌≡◌, ◌<◌, ◌≤◌, length};
ghost use Rattle.model_receiver.specs.HalfIteration.{window_width};
ghost use Rattle.half_iteration.specs.Runs.{window_from, left_of, IsReplaced};

use crate::strip::{ListStrip, strip_of};
use half_iteration::{BordersLeft, Views};
use window_decode::{Border, Ext, Work, run_window};

/// Decodes window `t` of half `h` between two borders: returns the cells of all places, those of the window
/// replaced, and the window's new borders.
pub fn decode_window(
    work: &mut Work,
    views: &Views<'_>,
    h: usize,
    t: usize,
    start: &Border,
    end: &Border,
    cells: Vec<Ext>,
) -> (Vec<Ext>, BordersLeft)
    requires room { window_width views.now.shape ≤ work.old }
    requires window { t < views.now.shape.windows }
    requires cells { length cells.items ≡ views.now.shape.k }
    ensures room { work.new ≡ work.old }
    ensures cells { IsReplaced views.now.shape h t
        (window_from views.now.streams.now views.now.shape h t start.now end.now cells.items)
        cells.items result.0.items }
    ensures left { result.1
        ≡ left_of (window_from views.now.streams.now views.now.shape h t start.now end.now cells.items) }
{
    let mut strip = strip_of(views, h, t, cells);
    let (forward, backward) = run_window(work, start, end, &mut strip);
    let ListStrip { cells, .. } = strip;
    (cells, BordersLeft { forward, backward })
}
