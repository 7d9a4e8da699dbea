//! Kinds of check, results of code blocks, and outcomes of transport blocks.

use lte_bits::{Block, List};

/// The check bits at the end of a code block: CRC24A, or CRC24B where there are several blocks
/// (36.212 5.1.1 and 5.1.2).
#[derive(Clone, Copy, Debug, PartialEq, Eq, Hash)]
pub enum CheckKind {
    A,
    B,
}

/// A decoded code block, the number of iterations that it took, from 1, and whether its check holds.
#[derive(Debug, Drop)]
pub struct CodeResult {
    pub block: Block,
    pub iterations: usize,
    pub passed: bool,
}

/// The outcome of a transport block after its transmissions. `iterations` is the sum over its code blocks of
/// the iterations that each took when it was last decoded.
#[derive(Debug, Drop)]
pub enum TbOutcome {
    /// All checks held after `transmissions` transmissions, and not before: the bytes of the payload.
    Delivered {
        bytes: List<u8>,
        transmissions: usize,
        iterations: usize,
    },
    /// The checks held after none of the `transmissions` transmissions.
    Failed {
        transmissions: usize,
        iterations: usize,
    },
}
