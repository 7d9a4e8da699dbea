//! A worker runs a window.
ghost use Rattle.std.specs.Prelude.{◌≡◌, ◌<◌, ◌≤◌, length};
ghost use Rattle.cell_shares.specs.Deal.{share_places};
ghost use Rattle.cell_shares.specs.Shares.{share_values, share_label, share_number, share_order};
ghost use Rattle.model_receiver.specs.Windows.{window_between, new_cells};
ghost use Rattle.half_iteration.specs.Runs.{left_of};
ghost use Rattle.window_workers.specs.Pieces.{job_of_piece, IsReady, IsDone};

use crate::piece::WindowPiece;
use crate::strip::ShareStrip;
use crate::view::{WindowView, of_half};
use cell_shares::Share;
use half_iteration::BordersLeft;
use window_decode::{Border, Ext, Work, run_window};

/// Runs a window over a share between two borders: returns the share with the new cells, and the window's new
/// borders.
fn run_share(
    work: &mut Work,
    view: &WindowView,
    start: &Border,
    end: &Border,
    share: Share<Ext>,
) -> (Share<Ext>, BordersLeft)
    requires least { 8 ≤ length (share_values share) }
    requires room { length (share_values share) ≤ work.old }
    requires systematic { length view.now.systematic.items ≡ length (share_values share) }
    requires parity { length view.now.parity.items ≡ length (share_values share) }
    requires places { view.now.places.items
        ≡ share_places (share_order share) (length (share_values share)) (share_number share) }
    ensures room { work.new ≡ work.old }
    ensures label { share_label result.0 ≡ share_label share }
    ensures cells { share_values result.0 ≡ new_cells (window_between start.now end.now
        view.now.systematic.items view.now.parity.items (share_values share)) }
    ensures left { result.1 ≡ left_of (window_between start.now end.now
        view.now.systematic.items view.now.parity.items (share_values share)) }
{
    let mut strip = ShareStrip {
        systematic: view.systematic.as_slice(),
        parity: view.parity.as_slice(),
        places: view.places.as_slice(),
        share,
    };
    let (forward, backward) = run_window(work, start, end, &mut strip);
    let ShareStrip {
        systematic: _,
        parity: _,
        places: _,
        share,
    } = strip;
    (share, BordersLeft { forward, backward })
}

/// Runs the window of a piece that is ready for a half.
pub(crate) fn run_piece(piece: WindowPiece, half: u32) -> WindowPiece
    requires window { share_number piece.share < (job_of_piece piece).shape.windows }
    requires ready { IsReady (job_of_piece piece) half (share_number piece.share) piece }
    ensures { IsDone (job_of_piece piece) half (share_number piece.share) result }
{
    let WindowPiece {
        share,
        mut tools,
        start,
        end,
    } = piece;
    let view = of_half(half, &tools.natural, &tools.interleaved);
    let (share, left) = run_share(&mut tools.work, view, &start, &end, share);
    tools.left = left;
    WindowPiece {
        share,
        tools,
        start,
        end,
    }
}
