//! The receiver's rules, as definitions: soft cells, the decoding of a code block, and the outcome of several
//! transmissions of a transport block.
#![tactic(auto)]

pub mod decoding;
pub mod limits;
pub mod paths;
pub mod positions;
pub mod result;
pub mod soft_cells;
pub mod transport_blocks;
pub mod windows;

pub use limits::DecoderLimits;
pub use result::{CheckKind, CodeResult, TbOutcome};
