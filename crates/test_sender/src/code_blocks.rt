//! Plans, and payloads cut into code blocks and joined again.
ghost use Rattle.std.specs.Prelude.{◌≡◌, ◌<◌, length};
ghost use Rattle.model_sender.specs.Segmentation.{Plan};
ghost use Rattle.segmentation.specs.Shape.{AreBlocksOf};

use lte_bits::{Bit, Block, unpack};
use segmentation::{BadLength, cut, plan, uncut};
use std::alloc::Global;
use std::process::Abort;
use std::test::Fail;

#[test]
fn plans_have_the_numbers_of_the_standard(rt: HostRuntime) -> Result<(), Fail> {
    for (bytes, numbers) in [
        (765, [1, 6144, 0, 1, 0, 0]),
        (766, [2, 3136, 3072, 1, 1, 8]),
        (9422, [13, 5824, 5760, 13, 0, 0]),
        (18722, [25, 6016, 5952, 25, 0, 0]),
    ] {
        let p = plan(bytes)?;
        let found = [p.c, p.k_plus, p.k_minus, p.c_plus, p.c_minus, p.f];
        assert_eq!(rt; found, numbers, "at {bytes}");
    }
    Ok(())
}

#[test]
fn other_lengths_are_refused(rt: HostRuntime) -> Result<(), Fail> {
    for bytes in [0, 18723] {
        assert_eq!(rt; plan(bytes), Err(BadLength));
    }
    let text = format!(in rt.alloc(); "{BadLength}")?;
    assert_eq!(rt; text.as_str(), "a transport block has 1 to 18722 bytes");
    Ok(())
}

// The streams of this block are a worked example of the encoder.
#[test]
fn two_bytes_make_one_block(rt: HostRuntime) -> Result<(), Fail> {
    let p = plan(2)?;
    let blocks = cut(rt.alloc(), &[0x00, 0x01], &p)?;
    let bits = unpack(rt.alloc(), &[0x00, 0x01, 0x86, 0x4C, 0xFB])?;
    for block in blocks.as_slice() {
        assert_eq!(rt; block.bits.as_slice(), bits.as_slice());
    }
    assert_eq!(rt; blocks.as_slice().len(), 1);
    Ok(())
}

/// Turns a bit of a block.
fn turn(block: &mut Block, place: usize)
    requires { place < length block.old.bits }
    ensures size { length block.new.bits ≡ length block.old.bits }
    ensures fill { block.new.fill ≡ block.old.fill }
{
    let bits = block.bits.as_mut_slice();
    bits[place] = match bits[place] {
        Bit::Zero => Bit::One,
        Bit::One => Bit::Zero,
    };
}

/// Turns a bit of one of the blocks, which keep their sizes and fillers.
fn turn_one(blocks: &mut [Block], r: usize, place: usize)
    ensures { (p : Plan) → AreBlocksOf p blocks.old → AreBlocksOf p blocks.new }
{
    if r < blocks.len() && place < blocks[r].bits.as_slice().len() {
        turn(&mut blocks[r], place);
    }
}

/// Returns whether the check bits hold after a bit of the blocks of a payload was turned.
fn holds_after(alloc: Global, payload: &[u8], r: usize, place: usize) -> Result<bool, Fail> {
    let p = plan(payload.len())?;
    let mut blocks = cut(alloc, payload, &p)?;
    turn_one(blocks.as_mut_slice(), r, place);
    Ok(uncut(alloc, blocks.as_slice(), &p)?.holds)
}

/// Cuts a payload of 766 bytes, and joins its blocks.
fn cut_and_join(rt: &impl Abort, alloc: Global, payload: &[u8]) -> Result<(), Fail> {
    let p = plan(payload.len())?;
    let blocks = cut(alloc, payload, &p)?;
    let wanted = [(3072, 8), (3136, 0)];
    assert_eq!(rt; blocks.as_slice().len(), wanted.len());
    for (block, (bits, fillers)) in blocks.as_slice().iter().zip(wanted) {
        assert_eq!(rt; block.bits.as_slice().len(), bits);
        assert_eq!(rt; block.fill, fillers);
    }
    if payload.iter().all(|byte| *byte == 0) {
        for block in blocks.as_slice() {
            let zeros = vec![in alloc; Bit::Zero; block.bits.as_slice().len()]?;
            assert_eq!(rt; block.bits.as_slice(), zeros.as_slice());
        }
    }
    let joined = uncut(alloc, blocks.as_slice(), &p)?;
    assert_eq!(rt; joined.payload.as_slice(), payload);
    assert!(rt; joined.holds);
    Ok(())
}

#[test]
fn blocks_are_joined_to_their_payload(rt: HostRuntime) -> Result<(), Fail> {
    let mut payload = vec![in rt.alloc(); 0; 766]?;
    cut_and_join(&rt, rt.alloc(), &payload)?;
    for (i, byte) in payload.iter_mut().enumerate() {
        *byte = (i * 37 % 251) as u8;
    }
    cut_and_join(&rt, rt.alloc(), &payload)
}

// Fillers and the blocks' own check bits aren't looked at.
#[test]
fn a_turned_bit_is_noticed_in_the_payload_and_its_check_bits(rt: HostRuntime) -> Result<(), Fail> {
    let payload = vec![in rt.alloc(); 0x5A; 766]?;
    for (r, place, holds) in [
        (0, 0, true),
        (0, 8, false),
        (0, 3047, false),
        (0, 3048, true),
        (1, 0, false),
        (1, 3111, false),
        (1, 3112, true),
    ] {
        assert_eq!(rt;
            holds_after(rt.alloc(), &payload, r, place)?,
            holds,
            "bit {place} of {r}"
        );
    }
    Ok(())
}
