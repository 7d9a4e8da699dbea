//! The bits of a hard transmission.
ghost use Rattle.std.specs.Prelude.{◌≡◌, IfOk};
ghost use Rattle.coded_stream.specs.Blocks.{IsTransmission};
ghost use Rattle.coded_stream.specs.declared.kind.Kind.TheVariants as kind;
ghost use Rattle.command_relay.specs.HardBits.{bits_in};

use lte_bits::{Bit, List, NoMemory, unpack};
use rate_match::Match;
use std::alloc::Global;

/// Returns the bits of a transmission, without the unused ones of its last byte.
pub fn bits_in(alloc: Global, m: &Match, bytes: &[u8]) -> Result<List<Bit>, NoMemory>
    requires { IsTransmission kind.Hard m.now.g bytes.now }
    ensures { IfOk result (λ bits. bits ≡ bits_in m.now bytes.now) }
{
    let mut bits = unpack(alloc, bytes)?;
    bits.resize(m.g(), Bit::Zero)?;
    Ok(bits)
}
