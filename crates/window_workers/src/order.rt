//! The order of a half.
ghost use Rattle.std.specs.Prelude.{◌≡◌, ℕ};
ghost use Rattle.model_sender.specs.Interleaver.{row_of};
ghost use Rattle.qpp_table.specs.Qpp.{row_in};
ghost use Rattle.window_workers.specs.Orders.{IsOrderIn};

use cell_shares::Order;
use qpp_table::interleaver::Qpp;

/// Returns the order in which half `half` takes the cells, by the interleaver of their number.
pub(crate) fn order_of(interleaver: Qpp, half: u32) -> Order
    ensures { (k : ℕ) → row_in interleaver ≡ row_of k → IsOrderIn k half result }
{
    if half % 2 == 0 {
        Order::Natural
    } else {
        Order::Interleaved(interleaver)
    }
}
