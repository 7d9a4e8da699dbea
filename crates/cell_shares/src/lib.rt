//! Disjoint shares of one buffer of cells: each share reads and writes its own cells, on any thread.
#![tactic(auto)]

mod cells;
mod deal;
mod joined_cells;
mod name;
mod order;
mod part;
mod right;
mod share;

pub use cells::Cells;
pub use deal::{one_list_is_dealt, values_are_dealt_by_place};
pub use joined_cells::join;
pub use name::CellsName;
pub use order::Order;
pub use share::Share;
