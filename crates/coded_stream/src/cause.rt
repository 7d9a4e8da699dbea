//! Why a stream is refused.

/// The magic is that of neither version.
pub const BAD_MAGIC: u8 = 1;

/// The kind isn't the expected one.
pub const BAD_KIND: u8 = 2;

/// Another field of the header isn't accepted.
pub const BAD_FIELD: u8 = 3;

/// A block's length isn't accepted.
pub const BAD_BLOCK_LENGTH: u8 = 4;

/// An unused low bit of a hard transmission is 1.
pub const BAD_BIT: u8 = 5;

/// The input ends within a unit.
pub const TRUNCATED: u8 = 6;

/// A byte follows the end word.
pub const TRAILING: u8 = 7;

/// There are too many blocks.
pub const TOO_MANY_BLOCKS: u8 = 8;
