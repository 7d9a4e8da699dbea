//! The board.
ghost use Rattle.std.specs.Prelude.{◌≡◌, ◌+◌, ◌-◌, ◌<◌, ◌≤◌, ◌^◌};

use crate::piece::Piece;
use crate::plays::Law;
use crate::view::{Slot, View};
use atomic_table::Table;
use std::alloc::Global;
use std::snapshot::Snapshot;

pub(crate) type Words<P> = Table<
    Slot<P, <P as Piece>::Common>,
    View<<P as Piece>::Job>,
    Snapshot<P>,
    Law<P>,
    Global,
>;

/// Pieces and their common value, which threads share. Word 0 is the claim word, the half times 256 and the
/// number of its windows drawn, with bit 63 set once stopped. Word 1 is the mask of the windows done. Only
/// `close` consumes a board.
pub struct Board<P: Piece> {
    pub(crate) table: Words<P>,
    pub(crate) count: usize,
    pub(crate) about: Snapshot<P>,
    ghost sized: { (table.shared.table_id.words ≡ 2) × (table.shared.table_id.slots ≡ count + 1)
        × (0 < count) × (count ≤ 64) },
    ghost named: { about ≡ table.shared.key },
}

impl<P: Piece> Board<P> {
    // The mask of all windows.
    pub(crate) fn all(&self) -> u64
        ensures { result ≡ 2 ^ self.now.count - 1 }
    {
        u64::MAX >> (64 - self.count)
    }
}
