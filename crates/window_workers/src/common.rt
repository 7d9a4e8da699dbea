//! The state that the windows of a half share.
ghost use Rattle.std.specs.Prelude.{◌≡◌, ◌%◌, ◌==◌, if◌then◌else◌};

use crate::piece::Tools;
use cell_shares::Share;
use half_iteration::BordersLeft;
use lte_bits::Bit;
use qpp_table::interleaver::Qpp;
use window_decode::{Border, CodeResult, Ext, Shape};

/// A decoding in a half: the tail borders, the borders that each window left in the half before, and the
/// decided bits of the last iteration.
#[derive(Drop)]
pub struct Progress {
    pub(crate) shape: Shape,
    pub(crate) interleaver: Qpp,
    pub(crate) even_tail: Border,
    pub(crate) odd_tail: Border,
    pub(crate) left: Vec<BordersLeft>,
    pub(crate) bits: Vec<Bit>,
}

impl Progress {
    /// Returns the border after the last position in half `half`.
    pub(crate) fn tail(&self, half: u32) -> Border
        ensures { result ≡ (if half % 2 == 0 then self.now.even_tail else self.now.odd_tail) }
    {
        if half % 2 == 0 {
            self.even_tail
        } else {
            self.odd_tail
        }
    }
}

/// Room for the shares and the tools of all pieces.
pub struct Rooms {
    pub(crate) shares: Vec<Share<Ext>>,
    pub(crate) tools: Vec<Tools>,
}

/// The stage of a decoding.
pub enum Stage {
    /// It is in a half.
    Running(Progress, Rooms),
    /// It has ended.
    Decided(CodeResult),
}

/// The state that the pieces of a board share: a decoding under way, or its result.
pub struct WindowCommon {
    pub(crate) stage: Stage,
}
