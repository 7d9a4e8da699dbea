//! The coded streams of a code block.
ghost use Rattle.std.specs.Prelude.{◌≡◌, Contains, IfOk, length};
ghost use Rattle.model_sender.specs.CodedStreams.{streams};
ghost use Rattle.model_sender.specs.Interleaver.{sizes};

use crate::addresses::InterleaverAddresses;
use crate::cells::{ended, room, systematic};
use crate::constituent::code;
use crate::tails::Tails;
use lte_bits::{Block, NoMemory, Streams};
use std::alloc::Global;

/// Returns the three coded streams of a code block of K bits, each of K + 4 cells. K is one of the 188 sizes
/// (36.212, table 5.1.3-3). `d0` and `d1` are `Null` at the fillers, and `d2` nowhere (5.1.3.2). The bits at
/// the fillers' places are coded as they are: the standard asks that they be `Zero`. Allocates the streams,
/// and temporarily the interleaver addresses.
pub fn encode(alloc: Global, block: &Block) -> Result<Streams, NoMemory>
    requires { Contains sizes (length block.now.bits) }
    ensures { IfOk result (λ s. s ≡ streams block.now) }
{
    let addresses = InterleaverAddresses::new(alloc, block.bits.as_slice().len())?;
    encode_with(alloc, block, &addresses)
}

/// Returns the same, with given addresses for the block's size, which can be reused for other blocks.
/// Allocates only the streams.
pub fn encode_with(
    alloc: Global,
    block: &Block,
    addresses: &InterleaverAddresses,
) -> Result<Streams, NoMemory>
    requires { addresses.now ≡ length block.now.bits }
    ensures { IfOk result (λ s. s ≡ streams block.now) }
{
    let bits = block.bits.as_slice();
    let own = systematic(alloc, bits, block.fill)?;
    let mut first = room(alloc, bits.len())?;
    let mut second = room(alloc, bits.len())?;
    let ends = code(
        first.as_mut_slice(),
        second.as_mut_slice(),
        bits,
        addresses.as_slice(),
        block.fill,
    );
    let tails = Tails::new(ends.first, ends.second);
    Ok(Streams {
        d0: ended(own, tails.d0)?,
        d1: ended(first, tails.d1)?,
        d2: ended(second, tails.d2)?,
    })
}
