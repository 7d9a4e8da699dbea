//! Desegmented code blocks.

use lte_bits::List;

/// The payload of code blocks, and whether its check bits hold.
#[derive(Debug, Drop)]
pub struct Uncut {
    pub payload: List<u8>,
    pub holds: bool,
}
