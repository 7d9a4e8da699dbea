//! The name of cells, as a type.

use std::marker::Model;

/// The identity of cells: the address of their buffer, their number, and the number of shares. No value of it
/// is made: contracts alone read it.
pub struct CellsName {
    start: *mut u8,
    count: usize,
    windows: usize,
}

impl Model for CellsName {
    ghost use Rattle.cell_shares.specs.Names.{Name};

    ghost Value = { Name };

    ghost view = { λ n. record { start = n.start; count = n.count; windows = n.windows } };
}
