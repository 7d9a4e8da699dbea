//! Code blocks, and the streams that the turbo coder makes of one.
use crate::bit::{Bit, Cell};
use crate::list::List;
use crate::soft::Soft;

/// A code block of K bits (36.212 5.1.2). The first `fill` of them are filler bits, with the value `Zero`;
/// `fill` is below K.
#[derive(Clone, Debug, Drop, PartialEq, Eq, Hash)]
pub struct Block {
    pub fill: usize,
    pub bits: List<Bit>,
}

/// The three coded streams of a code block (36.212 5.1.3.2), each of K + 4 cells.
#[derive(Clone, Debug, Drop, PartialEq, Eq, Hash)]
pub struct Streams {
    pub d0: List<Cell>,
    pub d1: List<Cell>,
    pub d2: List<Cell>,
}

/// Soft values of the three coded streams of a code block, each of K + 4 values. `fill` is the number
/// of its fillers.
#[derive(Clone, Debug, Drop, PartialEq, Eq, Hash)]
pub struct SoftStreams {
    pub fill: usize,
    pub d0: List<Soft>,
    pub d1: List<Soft>,
    pub d2: List<Soft>,
}
