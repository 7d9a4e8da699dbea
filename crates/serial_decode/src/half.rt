//! Half an iteration.
ghost use Rattle.std.specs.Prelude.{◌≡◌, ◌≤◌, length};
ghost use Rattle.model_receiver.specs.HalfIteration.{window_width, after};
ghost use Rattle.half_iteration.specs.Runs.{start_of};

use crate::window::decode_window;
use half_iteration::{BordersLeft, Views, end_of};
use window_decode::{Border, Ext, Work};

/// Decodes half `h` of a code block, window after window, and returns the new cells. `left` has each window's
/// borders from two halves ago, and receives the new ones.
pub fn decode_half(
    work: &mut Work,
    views: &Views<'_>,
    h: usize,
    cells: Vec<Ext>,
    left: &mut [BordersLeft],
) -> Vec<Ext>
    requires room { window_width views.now.shape ≤ work.old }
    requires cells { length cells.items ≡ views.now.shape.k }
    requires left { length left.old ≡ views.now.shape.windows }
    ensures room { work.new ≡ work.old }
    ensures cells { result.items
        ≡ (after views.now.streams.now views.now.shape h (start_of cells.items left.old)).cells }
    ensures left { left.new
        ≡ (after views.now.streams.now views.now.shape h (start_of cells.items left.old)).left }
{
    let windows = views.windows();
    let tail = views.tail(h);
    let mut cells = cells;
    let mut start = Border::known();
    for t in 0..windows {
        let earlier = left[t];
        let end = end_of(windows, left, tail, t);
        let (new_cells, leaves) = decode_window(work, views, h, t, &start, &end, cells);
        cells = new_cells;
        left[t] = leaves;
        start = earlier.forward;
    }
    cells
}
