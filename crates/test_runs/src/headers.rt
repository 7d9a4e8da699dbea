//! Headers of streams, and the words after them.
use std::alloc::{AllocError, Global};

/// The header of version One of a hard stream of payloads of at most 2 bytes, with one transmission a block:
/// G = 132, Q_m = 2 and redundancy version 0.
pub const HARD: [u8; 19] = [
    0x4C, 0x54, 0x43, 0x31, 0, 2, 1, 1, 0, 2, 0, 0, 0, 132, 0, 0, 0, 0, 0,
];

/// The same of soft values.
pub const SOFT: [u8; 19] = [
    0x4C, 0x54, 0x43, 0x31, 1, 2, 1, 1, 0, 2, 0, 0, 0, 132, 0, 0, 0, 0, 0,
];

/// The same in two transmissions, with the redundancy versions 0 and 2.
pub const SOFT_TWICE: [u8; 20] = [
    0x4C, 0x54, 0x43, 0x31, 1, 2, 1, 2, 0, 2, 0, 0, 0, 132, 0, 0, 0, 0, 0, 2,
];

/// The header of version Two of a hard stream of two transmissions a block: G = 132, Q_m = 2 and version 0,
/// and G = 8, Q_m = 4 and version 2.
pub const TWO: [u8; 26] = [
    0x4C, 0x54, 0x43, 0x32, 0, 2, 0, 2, 0, 0, 0, 0, 2, 1, 0, 0, 0, 0, 132, 4, 1, 2, 0, 0, 0, 8,
];

/// The length word of two bytes.
pub const LENGTH_2: [u8; 4] = [0, 0, 0, 2];

pub const END: [u8; 4] = [0; 4];

/// Returns the header of a soft stream of payloads of at most 766 bytes, with G = 18840 and redundancy
/// version 0.
pub fn large_header(alloc: Global, transmissions: u8) -> Result<Vec<u8>, AllocError> {
    let numbers = [
        1,
        2,
        1,
        transmissions,
        2,
        0xFE,
        0,
        0,
        0x49,
        0x98,
        0,
        0,
        0,
        0,
    ];
    let mut header = Vec::from_slice(alloc, b"LTC1")?;
    header.extend_from_slice(&numbers)?;
    header.resize(header.len().saturating_add(usize::from(transmissions)), 0)?;
    Ok(header)
}
