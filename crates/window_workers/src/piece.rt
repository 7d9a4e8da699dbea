//! The piece of one window.
ghost use Rattle.std.specs.Prelude.{◌≡◌};

use crate::common::WindowCommon;
use crate::job::DecodingJob;
use crate::view::WindowView;
use cell_shares::Share;
use half_iteration::BordersLeft;
use lte_bits::SoftStreams;
use phase_board::Piece;
use std::snapshot::Snapshot;
use window_decode::{Border, Ext, Shape, Work};

/// A worker's tools for a window in every half, and the borders that the window left last.
#[derive(Drop)]
pub struct Tools {
    pub(crate) streams: Snapshot<SoftStreams>,
    pub(crate) shape: Snapshot<Shape>,
    pub(crate) natural: WindowView,
    pub(crate) interleaved: WindowView,
    pub(crate) work: Work,
    pub(crate) left: BordersLeft,
}

/// A window of a half: its share of the cells, its soft values in both orders, and its borders.
pub struct WindowPiece {
    pub(crate) share: Share<Ext>,
    pub(crate) tools: Tools,
    pub(crate) start: Border,
    pub(crate) end: Border,
}

impl Piece for WindowPiece {
    ghost use Rattle.window_workers.specs.Pieces.{job_of_piece, IsReady, IsDone};
    ghost use Rattle.window_workers.specs.Commons.{IsCommonOf, IsEndedAt};

    type Common = WindowCommon;

    type Job = DecodingJob;

    ghost job = { job_of_piece };

    ghost windows = { λ job. job.shape.windows };

    ghost ready = { λ job h t p. IsReady job h t p };

    ghost done = { λ job h t p. IsDone job h t p };

    ghost common = { IsCommonOf };

    ghost ended = { IsEndedAt };
}
