//! A bit of the coded streams of a code block.

/// The bit at `index` of stream `stream`, which is 0, 1 or 2 for d0, d1 or d2 (36.212 5.1.3.2). The
/// index is below K + 4.
#[derive(Clone, Copy, Debug, PartialEq, Eq, Hash)]
pub struct Spot {
    pub stream: u8,
    pub index: usize,
}
