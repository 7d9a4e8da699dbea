//! Strips: the values and cells of one window, in any layout.
ghost use Rattle.std.specs.Prelude.{◌≡◌, ◌<◌, ℤ, List, length, slice_set};
ghost use Rattle.lte_bits.specs.Softs.{IsWithin};
ghost use Rattle.model_receiver.specs.Borders.{at};
ghost use Rattle.model_receiver.specs.Windows.{Extrinsic, cell_at};

use crate::ext::Ext;

/// The soft values and the extrinsic cells at the positions of one window.
pub trait Strip {
    /// The strip's other contents, as plain data.
    type Rest;

    ghost systematic: { Self → List ℤ };

    ghost parity: { Self → List ℤ };

    ghost cells: { Self → List Extrinsic };

    ghost rest: { Self → Self.Rest };

    /// Returns the number of positions.
    fn width(&self) -> usize
        ensures { result ≡ length (cells self.now) };

    /// Returns the systematic value of position `j`, from -127 to 127; `j` is below the width.
    fn sys(&self, j: usize) -> i16
        requires { j < length (cells self.now) }
        ensures value { result ≡ at (systematic self.now) j }
        ensures range { IsWithin 127 result };

    /// Returns the parity value of position `j`, from -127 to 127; `j` is below the width.
    fn par(&self, j: usize) -> i16
        requires { j < length (cells self.now) }
        ensures value { result ≡ at (parity self.now) j }
        ensures range { IsWithin 127 result };

    /// Returns the cell of position `j`, which is below the width.
    fn cell(&self, j: usize) -> Ext
        requires { j < length (cells self.now) }
        ensures { result ≡ cell_at (cells self.now) j };

    /// Replaces the cell of position `j`, which is below the width, and nothing else.
    fn set_cell(&mut self, j: usize, v: Ext)
        requires { j < length (cells self.old) }
        ensures cells { cells self.new ≡ slice_set (cells self.old) j v }
        ensures systematic { systematic self.new ≡ systematic self.old }
        ensures parity { parity self.new ≡ parity self.old }
        ensures rest { rest self.new ≡ rest self.old };
}
