//! Lists in memory, sinks over it, and the words of a line.
ghost use Rattle.std.specs.Prelude.{◌≡◌, ◌≤◌, IfOk};

use edge_io::MemSink;
use lte_bits::List;
use std::alloc::{AllocError, Global};

pub fn list_of<T: Copy>(alloc: Global, items: &[T]) -> Result<List<T>, AllocError>
    ensures { IfOk result (λ list. list ≡ items.now) }
{
    Ok(List::from_vec(Vec::from_slice(alloc, items)?))
}

/// Returns a sink with room for so many bytes, which takes them a piece at a time. Its calls of these numbers
/// fail.
pub fn sink_of(
    alloc: Global,
    room: usize,
    piece: usize,
    failing: &[u64],
) -> Result<MemSink, AllocError>
    requires { 1 ≤ piece }
{
    let mut sink = MemSink::new(alloc, piece, list_of(alloc, failing)?);
    match sink.reserve(room) {
        Ok(()) => Ok(sink),
        Err(_) => Err(AllocError),
    }
}

/// Returns the words of a line.
pub fn words_of(alloc: Global, line: &str) -> Result<Vec<&str>, AllocError> {
    let mut words = Vec::new(alloc);
    for word in line.split_whitespace() {
        words.push(word)?;
    }
    Ok(words)
}

/// Returns the pieces, one after the other.
pub fn joined(alloc: Global, pieces: &[&[u8]]) -> Result<Vec<u8>, AllocError> {
    let mut bytes = Vec::new(alloc);
    for piece in pieces {
        bytes.extend_from_slice(piece)?;
    }
    Ok(bytes)
}

/// Returns bytes that count up, and begin again after 255.
pub fn counted(alloc: Global, count: u32) -> Result<Vec<u8>, AllocError> {
    let mut bytes = Vec::new(alloc);
    for i in 0..count {
        bytes.push((i % 256) as u8)?;
    }
    Ok(bytes)
}
