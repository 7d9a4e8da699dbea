//! A code block that is decoded by itself.
ghost use Rattle.std.specs.Prelude.{◌≡◌, ◌≢◌, ◌+◌, ◌*◌, ◌≤◌, ◌<◌, ◌↔◌, Contains, IsTrue, IfOk, OnOk, OnErr};
ghost use Rattle.std.specs.Prelude.{length, map};
ghost use Rattle.std.specs.Result.{result_err};
ghost use Rattle.lte_bits.specs.Bits.{digit};
ghost use Rattle.lte_bits.specs.Softs.{clamped};
ghost use Rattle.model_sender.specs.Interleaver.{sizes};
ghost use Rattle.model_receiver.specs.Decoding.{code_result};
ghost use Rattle.soft_buffers.specs.Buffers.{streams_of_cells};
ghost use Rattle.gomzelat_c.specs.Buffers.{with_front};
ghost use Rattle.gomzelat_c.specs.Codes.{block_tests, code_tests, decoded_code, is_size, kind_of, length_tests};
ghost use Rattle.gomzelat_c.specs.Codes.{limit_tests, shape_in, shape_tests};
ghost use Rattle.gomzelat_c.specs.Refusals.{IsDone, IsTold};
ghost use Rattle.gomzelat_c.specs.State.{entry_of};
ghost use Rattle.gomzelat_c.specs.Tests.{first_failed};

use crate::alone::{decode_alone, streams_of};
use crate::buffers::{softs_of, write_bytes};
use crate::numbers::digits_of;
use crate::refusal::{Refusal, accept, told};
use crate::state::{CodeBlock, entry};
use lte_bits::NoMemory;
use model_receiver::{CheckKind, CodeResult};
use qpp_table::{qpp, win};
use std::alloc::Global;
use window_decode::Shape;

/// A code block: K; the number of its fillers; and its check, 0 for CRC24A and 1 for CRC24B.
#[repr(C)]
#[derive(Clone, Copy, Debug)]
pub struct Code {
    pub k: usize,
    pub fill: usize,
    pub check: u32,
}

/// Returns whether K is one of the 188 sizes.
fn is_size(k: usize) -> bool
    ensures value { result ≡ is_size k }
    ensures size { IsTrue result ↔ Contains sizes k }
{
    qpp(k).is_some()
}

/// Returns the check of that number, 0 or 1.
fn check_kind(check: u32) -> CheckKind
    ensures { result ≡ kind_of check }
{
    if check == 0 {
        CheckKind::A
    } else {
        CheckKind::B
    }
}

/// Returns the shape of a code block's decoding.
fn shape_in(code: &Code, windows: u32, limit: u32) -> Shape
    requires size { Contains sizes code.now.k }
    requires fillers { code.now.fill < code.now.k }
    requires some_windows { 1 ≤ windows }
    requires few_windows { windows ≤ 64 }
    requires some_iterations { 1 ≤ limit }
    requires few_iterations { limit ≤ 16 }
    ensures { result ≡ shape_in code.now windows limit }
{
    let kind = check_kind(code.check);
    let windows = win(code.k, windows as usize);
    Shape::new(code.k, code.fill, kind, windows, limit as usize).unwrap()
}

/// Tests the size of a code block, its fillers and its check.
fn is_lawful(code: &Code) -> Result<(), Refusal>
    ensures refused { result_err result ≡ first_failed (block_tests code.now) }
    ensures size { OnOk result (Contains sizes code.now.k) }
    ensures fillers { OnOk result (code.now.fill < code.now.k) }
{
    accept(is_size(code.k), Refusal::BadSize)?;
    accept(code.fill < code.k, Refusal::BadFillers)?;
    accept(code.check <= 1, Refusal::BadCheck)
}

/// Tests the limits on windows and iterations.
fn are_limits(windows: u32, limit: u32) -> Result<(), Refusal>
    ensures refused { result_err result ≡ first_failed (limit_tests windows limit) }
    ensures some_windows { OnOk result (1 ≤ windows) }
    ensures few_windows { OnOk result (windows ≤ 64) }
    ensures some_iterations { OnOk result (1 ≤ limit) }
    ensures few_iterations { OnOk result (limit ≤ 16) }
{
    accept((1..=64).contains(&windows), Refusal::BadWindows)?;
    accept((1..=16).contains(&limit), Refusal::BadLimit)
}

/// Returns the shape of a code block's decoding, or the refusal.
fn shape_of(code: &Code, windows: u32, limit: u32) -> Result<Shape, Refusal>
    ensures refused { result_err result ≡ first_failed (shape_tests code.now windows limit) }
    ensures shape { IfOk result (λ shape. shape ≡ shape_in code.now windows limit) }
    ensures few { OnOk result (code.now.k ≤ 6144) }
    ensures fillers { OnOk result (code.now.fill < code.now.k) }
    ensures some { OnOk result (1 ≤ limit) }
{
    is_lawful(code)?;
    are_limits(windows, limit)?;
    Ok(shape_in(code, windows, limit))
}

/// Tests the number of soft values, and whether the bits have room.
fn fits(code: &Code, values: usize, room: usize) -> Result<(), Refusal>
    requires { code.now.k ≤ 6144 }
    ensures refused { result_err result ≡ first_failed (length_tests code.now values room) }
    ensures values { OnOk result (values ≡ 3 * (code.now.k + 4)) }
    ensures room { OnOk result (code.now.k ≤ room) }
{
    accept(values == 3 * (code.k + 4), Refusal::BadValues)?;
    accept(code.k <= room, Refusal::ShortOutput)
}

/// Returns the shape in which a code block is decoded from `values` soft values, with room for `room` bits,
/// or the refusal.
fn accepted(
    code: &Code,
    windows: u32,
    limit: u32,
    values: usize,
    room: usize,
) -> Result<Shape, Refusal>
    ensures refused { result_err result
        ≡ first_failed (code_tests code.now windows limit values room) }
    ensures shape { IfOk result (λ shape. shape ≡ shape_in code.now windows limit) }
    ensures few { OnOk result (code.now.k ≤ 6144) }
    ensures fillers { OnOk result (code.now.fill < code.now.k) }
    ensures some { OnOk result (1 ≤ limit) }
    ensures values { OnOk result (values ≡ 3 * (code.now.k + 4)) }
    ensures room { OnOk result (code.now.k ≤ room) }
{
    let shape = shape_of(code, windows, limit)?;
    fits(code, values, room)?;
    Ok(shape)
}

/// Returns the result of decoding a code block of a shape from its soft values.
fn decoded(alloc: Global, code: &Code, shape: &Shape, values: &[i8]) -> Result<CodeResult, NoMemory>
    requires fill { shape.now.f ≡ code.now.fill }
    requires size { shape.now.k ≡ code.now.k }
    requires few { code.now.k ≤ 6144 }
    requires fillers { code.now.fill < code.now.k }
    requires values { length values.now ≡ 3 * (code.now.k + 4) }
    ensures { IfOk result (λ r. r ≡ code_result
        (streams_of_cells code.now.k code.now.fill (map (clamped 127) values.now)) shape.now) }
{
    let softs = softs_of(alloc, values)?;
    let streams = streams_of(alloc, code.k, code.fill, softs.as_slice())?;
    decode_alone(alloc, &streams, shape)
}

fn decode_block(
    alloc: Global,
    code: &Code,
    windows: u32,
    limit: u32,
    values: &[i8],
    bits: &mut [u8],
    block: &mut CodeBlock,
) -> Result<(), Refusal>
    ensures answer { IsDone result (first_failed
        (code_tests code.now windows limit (length values.now) (length bits.old))) }
    ensures bits { OnOk result (bits.new ≡ with_front
        (map digit (decoded_code code.now windows limit values.now).block.bits) bits.old) }
    ensures block { OnOk result (block.new ≡ entry_of (decoded_code code.now windows limit values.now)) }
    ensures bits_kept { OnErr result (bits.new ≡ bits.old) }
    ensures block_kept { OnErr result (block.new ≡ block.old) }
{
    let shape = accepted(code, windows, limit, values.len(), bits.len())?;
    let decoded = decoded(alloc, code, &shape, values)?;
    let digits = digits_of(alloc, decoded.block.bits.as_slice())?;
    write_bytes(bits, digits.as_slice());
    *block = entry(&decoded);
    Ok(())
}

/// Decodes a code block from the 3 * (K + 4) soft values of its coded streams, those of d0, d1 and d2, in at
/// most `windows` windows, 1 to 64, and with at most `limit` iterations, 1 to 16. Values at fillers are
/// ignored. Writes its K bits, each 0 or 1, to the beginning of `bits`, and to `block` whether its check
/// holds and the iterations. Returns 0, or a `Refusal`'s number with nothing changed.
#[unsafe(no_mangle)]
pub extern "C" fn gomzelat_decode_block(
    alloc: Global,
    code: Code,
    windows: u32,
    limit: u32,
    values: &[i8],
    bits: &mut [u8],
    block: &mut CodeBlock,
) -> u32
    ensures answer { IsTold result (first_failed
        (code_tests code windows limit (length values.now) (length bits.old))) }
    ensures bits { result ≡ 0 → bits.new ≡ with_front
        (map digit (decoded_code code windows limit values.now).block.bits) bits.old }
    ensures block { result ≡ 0 → block.new ≡ entry_of (decoded_code code windows limit values.now) }
    ensures bits_kept { result ≢ 0 → bits.new ≡ bits.old }
    ensures block_kept { result ≢ 0 → block.new ≡ block.old }
{
    told(decode_block(alloc, &code, windows, limit, values, bits, block))
}
