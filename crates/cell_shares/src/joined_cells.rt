//! Joining of shares into cells.
ghost use Rattle.std.specs.Prelude.{◌≡◌, ◌≤◌, ◌<◌, map, length};
ghost use Rattle.cell_shares.specs.declared.order.Order.{Order};
ghost use Rattle.cell_shares.specs.Deal.{deal};
ghost use Rattle.cell_shares.specs.Names.{Name};
ghost use Rattle.cell_shares.specs.Shares.{name_of, cell_values, share_values, AreAllOf};

use crate::cells::Cells;
use crate::order::Order;
use crate::share::Share;

/// Returns the cells of all shares of one split, in order: each has the value that its share holds.
pub fn join<T: Copy>(shares: Vec<Share<T>>) -> Cells<T>
    requires shares { (name : Name) × (order : Order) × AreAllOf name order shares.items }
    ensures name { (name : Name) (order : Order) → AreAllOf name order shares.items
        → name_of result ≡ name }
    ensures values { (name : Name) (order : Order) → AreAllOf name order shares.items
        → deal order name.windows (cell_values result) ≡ map share_values shares.items }
    ensures length { (name : Name) (order : Order) → AreAllOf name order shares.items
        → length (cell_values result) ≡ name.count }
{
    let mut shares = shares;
    let Some(last) = shares.pop() else {
        unreachable!()
    };
    let Share {
        mut part,
        mut right,
        mut split,
        number: _,
        first: _,
    } = last;
    while let Some(share) = shares.pop() {
        let None = right else { unreachable!() };
        let Share {
            part: before,
            right: its_right,
            split: its_split,
            number: _,
            first: _,
        } = share;
        part = before.glue(part);
        right = its_right;
        split = its_split;
    }
    let Some(right) = right else { unreachable!() };
    Cells {
        part: part.arrange(&Order::Natural),
        right,
        heap: split.heap,
        room: shares,
        count: split.count,
        windows: split.windows,
        width: split.width,
    }
}
