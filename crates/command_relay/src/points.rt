//! `points`, transmission by transmission.
ghost use Rattle.std.specs.Prelude.{◌≡◌, IfOk, length};
ghost use Rattle.qam_points.specs.Reception.{received};
ghost use Rattle.command_relay.specs.Points.{terms_on};

use crate::bits::bits_in;
use crate::converter::{Converter, Place};
use coded_stream::{Header, Want};
use lte_bits::{Bit, List, NoMemory, Soft};
use qam_points::{demap, map, receive};
use rate_match::Match;
use soft_channel::NoiseChannel;
use std::alloc::Global;
use stream_loop::push_bytes;

/// A channel over which bits are sent as points.
#[derive(Clone, Copy, Debug, Drop)]
pub struct Points {
    pub channel: NoiseChannel,
}

impl Points {
    /// Returns the received soft values of the bits of a transmission.
    fn softs(
        &self,
        alloc: Global,
        place: Place,
        m: &Match,
        bits: &[Bit],
    ) -> Result<List<Soft>, NoMemory>
        requires { length bits.now ≡ m.now.g }
        ensures { IfOk result (λ softs. softs ≡ received m.now.qm self.now.channel.amp
            (terms_on self.now.channel place.block place.number m.now) bits.now) }
    {
        let channel = &self.channel;
        let amp = channel.amp;
        let mut points = map(alloc, bits, m.qm())?;
        let count = 2 * points.as_slice().len();
        let block = place.block as u32;
        let terms = channel.terms(alloc, count, block, place.number as u8)?;
        receive(points.as_mut_slice(), amp, terms.as_slice());
        demap(alloc, points.as_slice(), m.qm(), amp)
    }
}

impl Converter for Points {
    ghost use Rattle.command_relay.specs.Points.{point_conversion};

    ghost conversion = { λ s. point_conversion s.channel };

    fn want(&self) -> Want {
        self.channel.want()
    }

    fn header(&self, header: &Header) -> Header {
        self.channel.header(header)
    }

    fn push(
        &self,
        alloc: Global,
        text: &mut Vec<u8>,
        _header: &Header,
        place: Place,
        m: &Match,
        bytes: &[u8],
    ) -> Result<(), NoMemory> {
        let bits = bits_in(alloc, m, bytes)?;
        let softs = self.softs(alloc, place, m, bits.as_slice())?;
        push_bytes(text, softs.as_slice())
    }
}
