//! The trait of a board's pieces.
ghost use Rattle.std.specs.Prelude.{ℕ};

/// A piece of work for one window. All its meanings are over a job, which is the same for all
/// pieces of a board.
pub trait Piece {
    /// The state that the pieces of a half share.
    type Common;

    /// Plain data. No value of it is made: contracts alone read it.
    type Job;

    ghost job: { Self → Self.Job };

    // How many windows the job has.
    ghost windows: { Self.Job → ℕ };

    // The piece may be drawn for a half and a window.
    ghost ready: { Self.Job → ℕ → ℕ → Self → Type 0 };

    // Its work for a half and a window is done.
    ghost done: { Self.Job → ℕ → ℕ → Self → Type 0 };

    // The common value of a half.
    ghost common: { Self.Job → ℕ → Self.Common → Type 0 };

    // The common value that ends the board at a half.
    ghost ended: { Self.Job → ℕ → Self.Common → Type 0 };
}
