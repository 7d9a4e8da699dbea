//! The evidence of a closed board.
ghost use Rattle.std.specs.Prelude.{◌≡◌};

use crate::piece::Piece;
use std::snapshot::Snapshot;

/// Shows that a board of a job was stopped at a half. `close` alone makes it.
#[derive(Drop)]
pub struct Closed<P: Piece> {
    pub(crate) about: Snapshot<P>,
    pub(crate) half: u32,
}

impl<P: Piece> Closed<P> {
    /// Returns the half at which the board was stopped.
    pub fn half(&self) -> u32
        ensures { result ≡ self.now.half }
    {
        self.half
    }
}
