//! The state of a transport block that a caller keeps between calls.
ghost use Rattle.std.specs.Prelude.{◌≡◌, ◌≢◌, ◌≤◌, ◌<◌, ◌++◌, [], ◌∷◌, IfOk, OnOk, flat_map, length, map};
ghost use Rattle.lte_bits.specs.Bits.{bit_of, digit};
ghost use Rattle.model_sender.specs.Segmentation.{plan_of, size};
ghost use Rattle.segmentation.specs.Shape.{AreBlocksOf};
ghost use Rattle.gomzelat_c.specs.Buffers.{with_front};
ghost use Rattle.gomzelat_c.specs.Refusals.{told};
ghost use Rattle.gomzelat_c.specs.State.{bit_count, digits_of, entry_of, kept, sizes_of};
ghost use Rattle.gomzelat_c.specs.Tests.{first_failed, length_test};

use crate::refusal::Refusal;
use lte_bits::{Bit, Block, List, NoMemory};
use model_receiver::CodeResult;
use segmentation::plans::Plan;
use segmentation::{fill, size};
use soft_buffers::cell_count;
use std::alloc::Global;

/// The outcome of a code block: whether its check holds, 1 or 0, and the iterations of its last decoding. In
/// a caller's value, any non-zero number means that the block passed.
#[repr(C)]
#[derive(Clone, Copy, Debug)]
pub struct CodeBlock {
    pub passed: u32,
    pub iterations: usize,
}

/// The sizes of a transport block's state: the numbers of its soft cells, its code blocks, and their bits.
#[repr(C)]
#[derive(Clone, Copy, Debug)]
pub struct Sizes {
    pub cells: usize,
    pub blocks: usize,
    pub bits: usize,
}

/// Returns the bits of all code blocks, at most 153,600.
pub fn bit_count(plan: &Plan) -> usize
    ensures { result ≡ bit_count plan.now }
{
    let mut count = 0;
    for r in 0..plan.c {
        count += size(plan, r);
    }
    count
}

/// Writes the sizes of the state of a payload of `bytes` bytes to `sizes`. Returns 0, or 2 with nothing
/// changed if there are no bytes or more than 18,722.
#[unsafe(no_mangle)]
pub extern "C" fn gomzelat_sizes(bytes: usize, sizes: &mut Sizes) -> u32
    ensures answer { result ≡ told (first_failed (length_test bytes ∷ [])) }
    ensures sizes { result ≡ 0 → sizes.new ≡ sizes_of (plan_of bytes) }
    ensures kept { result ≢ 0 → sizes.new ≡ sizes.old }
{
    match segmentation::plan(bytes) {
        Ok(plan) => {
            *sizes = Sizes {
                cells: cell_count(&plan),
                blocks: plan.c,
                bits: bit_count(&plan),
            };
            0
        }
        Err(bad) => Refusal::from(bad).number(),
    }
}

/// Returns the bit of a byte: any non-zero byte is a bit 1.
fn bit(byte: u8) -> Bit
    ensures { result ≡ bit_of byte }
{
    if byte == 0 { Bit::Zero } else { Bit::One }
}

/// Returns the bit of each byte.
pub fn bits_of(alloc: Global, bytes: &[u8]) -> Result<List<Bit>, NoMemory>
    ensures { IfOk result (λ bits. bits ≡ map bit_of bytes.now) }
{
    let mut bits = Vec::with_capacity(alloc, bytes.len())?;
    for byte in bytes {
        bits.push(bit(*byte))?;
    }
    Ok(List::from_vec(bits))
}

/// Returns the results given by entries and bits.
pub fn kept(
    alloc: Global,
    plan: &Plan,
    blocks: &[CodeBlock],
    bits: &[u8],
) -> Result<Vec<CodeResult>, NoMemory>
    requires blocks { plan.now.c ≤ length blocks.now }
    requires bits { bit_count plan.now ≤ length bits.now }
    ensures results { IfOk result (λ results. results.items ≡ kept plan.now blocks.now bits.now) }
    ensures shaped { IfOk result (λ results. AreBlocksOf plan.now (map (λ x. x.block) results.items)) }
{
    let mut results = Vec::with_capacity(alloc, plan.c)?;
    let mut rest = bits;
    for r in 0..plan.c {
        let (own, after) = rest.split_at(size(plan, r));
        results.push(CodeResult {
            block: Block {
                fill: fill(plan, r),
                bits: bits_of(alloc, own)?,
            },
            iterations: blocks[r].iterations,
            passed: blocks[r].passed != 0,
        })?;
        rest = after;
    }
    Ok(results)
}

/// Returns the entry of a result.
pub fn entry(of: &CodeResult) -> CodeBlock
    ensures { result ≡ entry_of of.now }
{
    CodeBlock {
        passed: if of.passed { 1 } else { 0 },
        iterations: of.iterations,
    }
}

/// Returns the entries of results.
pub fn entries_of(alloc: Global, results: &[CodeResult]) -> Result<List<CodeBlock>, NoMemory>
    ensures { IfOk result (λ entries. entries ≡ map entry_of results.now) }
{
    let mut entries = Vec::with_capacity(alloc, results.len())?;
    for each in results {
        entries.push(entry(each))?;
    }
    Ok(List::from_vec(entries))
}

/// Appends the digits of bits.
fn push_digits(digits: &mut Vec<u8>, bits: &[Bit]) -> Result<(), NoMemory>
    ensures { OnOk result (digits.new.items ≡ digits.old.items ++ map digit bits.now) }
{
    for bit in bits {
        digits.push(u8::from(*bit))?;
    }
    Ok(())
}

/// Returns the bits of results, as digits.
pub fn digits_of(alloc: Global, results: &[CodeResult]) -> Result<List<u8>, NoMemory>
    ensures { IfOk result (λ digits. digits ≡ digits_of results.now) }
{
    let mut digits = Vec::new(alloc);
    for each in results {
        push_digits(&mut digits, each.block.bits.as_slice())?;
    }
    Ok(List::from_vec(digits))
}

/// Writes entries to the beginning of a buffer.
pub fn write_entries(buffer: &mut [CodeBlock], entries: &[CodeBlock])
    requires { length entries.now ≤ length buffer.old }
    ensures { buffer.new ≡ with_front entries.now buffer.old }
{
    buffer[..entries.len()].copy_from_slice(entries);
}
