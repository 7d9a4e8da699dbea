//! The segmentation plan of a transport block.

use std::marker::Model;

/// The plan of a transport block of `bytes` bytes, 1 to 18,722 (36.212 5.1.2): C, K+, K-, C+, C- and F. The
/// first `c_minus` of the `c` blocks have `k_minus` bits, the others `k_plus`, and block 0 begins with `f`
/// filler bits.
#[derive(Clone, Copy, Debug, PartialEq, Eq)]
pub struct Plan {
    pub bytes: usize,
    pub c: usize,
    pub k_plus: usize,
    pub k_minus: usize,
    pub c_plus: usize,
    pub c_minus: usize,
    pub f: usize,
}

impl Model for Plan {
    ghost use Rattle.model_sender.specs.Segmentation.{Plan as Numbers};

    ghost Value = { Numbers };

    ghost use Rattle.segmentation.specs.Shown.{shown, IsKept, hidden};

    ghost view = { shown };

    ghost invariant = { IsKept };

    ghost inverse = { hidden };
}
