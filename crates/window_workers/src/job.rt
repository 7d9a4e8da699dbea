//! The job that the pieces of a board belong to.

use cell_shares::CellsName;
use lte_bits::SoftStreams;
use window_decode::Shape;

/// The decoding of a code block: its soft values, its shape, and the name of the cells. No value of it
/// is made: contracts alone read it.
pub struct DecodingJob {
    pub streams: SoftStreams,
    pub shape: Shape,
    pub name: CellsName,
}
