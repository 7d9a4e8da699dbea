//! Room for the metrics of a window.
ghost use Rattle.std.specs.Prelude.{◌≡◌, ◌≤◌, IfOk};

use lte_bits::NoMemory;
use std::alloc::Global;
use std::marker::Model;
use std::simd::prelude::*;

/// Room for the metrics of a window of up to some width.
#[derive(Drop)]
pub struct Work {
    pub(crate) rows: Vec<i16x8>,
}

impl Model for Work {
    ghost use Rattle.std.specs.Prelude.{ℕ, ◌≤◌, length};

    ghost Value = { ℕ };

    ghost view = { λ w. length w.rows.items };

    ghost invariant = { λ w. length w.rows.items ≤ 6144 };
}

impl Work {
    /// Allocates for windows of up to `width` positions; `width` is 8 to 6144.
    pub fn new(alloc: Global, width: usize) -> Result<Work, NoMemory>
        requires least { 8 ≤ width }
        requires most { width ≤ 6144 }
        ensures { IfOk result (λ work. work ≡ width) }
    {
        Ok(Work {
            rows: vec![in alloc; i16x8::splat(0); width]?,
        })
    }

    /// Returns the greatest width for which there is room.
    pub fn room(&self) -> usize
        ensures { result ≡ self.now }
    {
        self.rows.len()
    }
}
