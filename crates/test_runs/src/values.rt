//! Soft values as the bytes of a stream.
use crate::headers::{END, SOFT};
use lte_bits::{NoMemory, Soft};
use std::alloc::{AllocError, Global};
use std::test::Fail;
use stream_loop::push_bytes;
use test_blocks::{sent_of_block, zeros_and_one};

/// Returns the bytes of soft values.
pub fn bytes_of(alloc: Global, values: &[Soft]) -> Result<Vec<u8>, NoMemory> {
    let mut bytes = Vec::new(alloc);
    push_bytes(&mut bytes, values)?;
    Ok(bytes)
}

/// Returns what is sent of a code block of 39 zeros and a one, which fails its check, over G = 132.
pub fn failing_values(alloc: Global) -> Result<Vec<u8>, Fail> {
    let values = sent_of_block(alloc, 2, 132, 0, zeros_and_one(alloc, 39, &[])?)?;
    Ok(bytes_of(alloc, values.as_slice())?)
}

/// Returns a soft stream of so many blocks of one byte, with G = 2 and all values 0.
pub fn small_blocks(alloc: Global, count: usize) -> Result<Vec<u8>, AllocError> {
    let mut bytes = Vec::from_slice(alloc, &SOFT)?;
    bytes[9] = 1;
    bytes[13] = 2;
    for _ in 0..count {
        bytes.extend_from_slice(&[0, 0, 0, 1, 0, 0])?;
    }
    bytes.extend_from_slice(&END)?;
    Ok(bytes)
}
