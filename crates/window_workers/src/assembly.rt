//! Disassembly of pieces, and their reassembly.
ghost use Rattle.std.specs.Prelude.{◌≡◌, ◌≤◌, [], length, map, reverse, vec_capacity};
ghost use Rattle.window_workers.specs.Commons.{HasRooms};
ghost use Rattle.window_workers.specs.Pieces.{share_of, tools_of, left_of_piece};
ghost use Rattle.window_workers.specs.HalfEnds.{AreBordered};

use crate::common::Rooms;
use crate::piece::{Tools, WindowPiece};
use cell_shares::Share;
use half_iteration::{BordersLeft, end_of};
use window_decode::{Border, Ext};

/// Returns the shares of pieces, in order, and their tools, from last to first.
pub(crate) fn take_apart(
    pieces: &mut Vec<WindowPiece>,
    rooms: Rooms,
) -> (Vec<Share<Ext>>, Vec<Tools>)
    requires rooms { HasRooms (length pieces.old.items) rooms }
    ensures pieces { pieces.new.items ≡ [] }
    ensures room { length pieces.old.items ≤ vec_capacity pieces.new }
    ensures shares { result.0.items ≡ map share_of pieces.old.items }
    ensures tools { result.1.items ≡ reverse (map tools_of pieces.old.items) }
{
    let Rooms {
        mut shares,
        mut tools,
    } = rooms;
    while let Some(piece) = pieces.pop() {
        let WindowPiece {
            share,
            tools: its_tools,
            start: _,
            end: _,
        } = piece;
        shares.push_reserved(share);
        tools.push_reserved(its_tools);
    }
    shares.reverse();
    (shares, tools)
}

/// Assembles pieces from shares in order and tools from last to first, and returns the emptied vectors.
/// `left` has the borders that each window left two halves ago, and `tail` is the border after the last
/// position.
pub(crate) fn put_together(
    pieces: &mut Vec<WindowPiece>,
    shares: Vec<Share<Ext>>,
    tools: Vec<Tools>,
    left: &[BordersLeft],
    tail: Border,
) -> Rooms
    requires none { pieces.old.items ≡ [] }
    requires room { length shares.items ≤ vec_capacity pieces.old }
    requires tools { length tools.items ≡ length shares.items }
    requires left { length left.now ≡ length shares.items }
    ensures shares { map share_of pieces.new.items ≡ shares.items }
    ensures tools { map tools_of pieces.new.items ≡ reverse tools.items }
    ensures borders { AreBordered left.now tail pieces.new.items }
    ensures rooms { HasRooms (length shares.items) result }
{
    let mut shares = shares;
    let mut tools = tools;
    shares.reverse();
    let windows = shares.len();
    let mut start = Border::known();
    for t in 0..windows {
        let Some(share) = shares.pop() else {
            unreachable!()
        };
        let Some(its_tools) = tools.pop() else {
            unreachable!()
        };
        pieces.push_reserved(WindowPiece {
            share,
            tools: its_tools,
            start,
            end: end_of(windows, left, tail, t),
        });
        let earlier = left[t];
        start = earlier.forward;
    }
    Rooms { shares, tools }
}

/// Writes the borders that the windows of pieces left last.
pub(crate) fn take_left(pieces: &[WindowPiece], left: &mut [BordersLeft])
    requires { length left.old ≡ length pieces.now }
    ensures { left.new ≡ map left_of_piece pieces.now }
{
    for (t, left) in left.iter_mut().enumerate() {
        *left = pieces[t].tools.left;
    }
}
