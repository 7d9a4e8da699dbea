//! Conversion of a stream, transmission by transmission.
ghost use Rattle.std.specs.Prelude.{◌≡◌, ◌<◌, ◌≤◌, ◌++◌, true, IfOk, length, take, drop};
ghost use Rattle.coded_stream.specs.Blocks.{IsBlock, IsTransmission, transmission_size};
ghost use Rattle.coded_stream.specs.Header.{kind_code};
ghost use Rattle.coded_stream.specs.Opening.{is_wanted};
ghost use Rattle.coded_stream.specs.Shown.{header_of};
ghost use Rattle.stream_loop.specs.Rounds.{block_of};
ghost use Rattle.command_relay.specs.Conversions.{Conversion, converted};

use coded_stream::{Header, Kind, Want, length_word, transmission_size};
use lte_bits::NoMemory;
use rate_match::Match;
use run_loop::blocks_line;
use std::alloc::Global;
use stream_loop::{Handled, Handler};

/// The place of a transmission in a stream: the numbers of its block and of the transmission in it, from 0.
#[derive(Clone, Copy)]
pub struct Place {
    pub block: usize,
    pub number: usize,
    pub ghost few_blocks: { block < 4096 },
    pub ghost few: { number < 8 },
}

/// The conversion of each transmission of a stream.
pub trait Converter: Drop {
    ghost conversion: { Self → Conversion };

    /// Returns which streams it takes.
    fn want(&self) -> Want
        ensures { result ≡ (conversion self.now).want };

    /// Returns the header of the stream that is written, for that of the stream that is read.
    fn header(&self, header: &Header) -> Header
        ensures { header_of result ≡ (conversion self.now).header (header_of header.now) };

    /// Appends a converted transmission.
    fn push(
        &self,
        alloc: Global,
        text: &mut Vec<u8>,
        header: &Header,
        place: Place,
        m: &Match,
        bytes: &[u8],
    ) -> Result<(), NoMemory>
        requires wanted { is_wanted (conversion self.now).want (kind_code header.now.kind) ≡ true }
        requires accepted { IsTransmission header.now.kind m.now.g bytes.now }
        ensures { IfOk result (λ _. text.new.items ≡ text.old.items ++ (conversion self.now).made
            (header_of header.now) place.block place.number m.now bytes.now) };
}

/// Returns the bytes of a transmission, and those after it.
fn divided<'a>(kind: Kind, m: &Match, bytes: &'a [u8]) -> (&'a [u8], &'a [u8])
    requires { transmission_size kind m.now.g ≤ length bytes.now }
    ensures own { result.0.now ≡ take (transmission_size kind m.now.g) bytes.now }
    ensures others { result.1.now ≡ drop (transmission_size kind m.now.g) bytes.now }
{
    let size = transmission_size(kind, m.g());
    (&bytes[..size], &bytes[size..])
}

/// The command that writes the stream it reads, converted transmission by transmission.
#[derive(Drop)]
pub struct Converted<C: Converter>(pub C);

impl<C: Converter> Converted<C> {
    /// Returns the text of a block.
    fn text(
        &self,
        alloc: Global,
        header: &Header,
        block: usize,
        payload: usize,
        bytes: &[u8],
    ) -> Result<Vec<u8>, NoMemory>
        requires wanted { is_wanted (C.conversion self.now.0).want (kind_code header.now.kind) ≡ true }
        requires few { block < 4096 }
        requires accepted { IsBlock (header_of header.now) (block_of payload bytes.now) }
        ensures { IfOk result (λ text. text.items ≡ (converted (C.conversion self.now.0)
            (header_of header.now) block (block_of payload bytes.now)).text) }
    {
        let mut text = length_word(alloc, payload as u32)?;
        let mut rest = bytes;
        for number in 0..header.sends.len() {
            let (m, _) = header.sends.at(number);
            let (own, after) = divided(header.kind, &m, rest);
            rest = after;
            let place = Place { block, number };
            self.0.push(alloc, &mut text, header, place, &m, own)?;
        }
        Ok(text)
    }
}

impl<C: Converter> Handler for Converted<C> {
    ghost use Rattle.command_relay.specs.Conversions.{handling_of};

    ghost handling = { λ s. handling_of (C.conversion s.0) };

    fn want(&self) -> Want {
        self.0.want()
    }

    fn header(&self, header: &Header) -> Option<Header> {
        Some(self.0.header(header))
    }

    fn block(
        &self,
        alloc: Global,
        header: &Header,
        number: usize,
        payload: usize,
        bytes: &[u8],
    ) -> Result<Handled, NoMemory> {
        let text = self.text(alloc, header, number, payload, bytes)?;
        Ok(Handled {
            text,
            line: Vec::new(alloc),
            failed: false,
        })
    }

    fn last(&self, alloc: Global, blocks: usize, _failed: usize) -> Result<Vec<u8>, NoMemory> {
        blocks_line(alloc, blocks)
    }
}
