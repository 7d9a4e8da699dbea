//! `channel`, transmission by transmission.

use crate::bits::bits_in;
use crate::converter::{Converter, Place};
use coded_stream::{Header, Kind, Want};
use lte_bits::NoMemory;
use rate_match::Match;
use soft_channel::NoiseChannel;
use std::alloc::Global;
use stream_loop::push_bytes;

impl Converter for NoiseChannel {
    ghost use Rattle.command_relay.specs.Channel.{noisy_conversion};

    ghost conversion = { λ s. noisy_conversion s };

    fn want(&self) -> Want {
        Want::Hard
    }

    fn header(&self, header: &Header) -> Header {
        Header {
            version: header.version,
            kind: Kind::Soft,
            tb: header.tb,
            sends: header.sends,
        }
    }

    fn push(
        &self,
        alloc: Global,
        text: &mut Vec<u8>,
        _header: &Header,
        place: Place,
        m: &Match,
        bytes: &[u8],
    ) -> Result<(), NoMemory> {
        let bits = bits_in(alloc, m, bytes)?;
        let block = place.block as u32;
        let softs = self.noisy(alloc, bits.as_slice(), block, place.number as u8)?;
        push_bytes(text, softs.as_slice())
    }
}
