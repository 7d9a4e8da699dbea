//! `scramble`, transmission by transmission.
ghost use Rattle.std.specs.Prelude.{◌≡◌, ◌≤◌};
ghost use Rattle.command_relay.specs.Scramble.{init_of};

use crate::bits::bits_in;
use crate::converter::{Converter, Place};
use coded_stream::{Header, Kind, Want};
use gold_scramble::{Init, scramble_bits, turn_softs};
use lte_bits::{NoMemory, pack};
use rate_match::Match;
use std::alloc::Global;
use stream_loop::{push_bytes, softs_of};

/// Scrambling: a terminal's identity, the number of a codeword, 0 or 1, the slot of the first transmission,
/// 0 to 19, and a cell, 0 to 503.
#[derive(Clone, Copy, Debug, Drop)]
pub struct Scramble {
    pub rnti: u16,
    pub q: u8,
    pub slot: u8,
    pub cell: u16,
    pub ghost codeword: { q ≤ 1 },
    pub ghost in_frame: { slot ≤ 19 },
    pub ghost in_cells: { cell ≤ 503 },
}

impl Scramble {
    /// Returns c_init of a transmission, with `count` transmissions in each block.
    fn init(&self, count: usize, place: Place) -> Init
        requires { count ≤ 8 }
        ensures { result ≡ init_of (record {
          rnti = self.now.rnti;
          q = self.now.q;
          slot = self.now.slot;
          cell = self.now.cell;
        }) count place.block place.number }
    {
        let earlier = place.block * count + place.number;
        let slot = (usize::from(self.slot) + 2 * earlier) % 20;
        Init::new(self.rnti, self.q, slot as u8, self.cell).unwrap()
    }
}

impl Converter for Scramble {
    ghost use Rattle.command_relay.specs.Scramble.{scrambled_conversion};

    ghost conversion = { λ s. scrambled_conversion (record {
      rnti = s.rnti;
      q = s.q;
      slot = s.slot;
      cell = s.cell;
    }) };

    fn want(&self) -> Want {
        Want::Any
    }

    fn header(&self, header: &Header) -> Header {
        *header
    }

    fn push(
        &self,
        alloc: Global,
        text: &mut Vec<u8>,
        header: &Header,
        place: Place,
        m: &Match,
        bytes: &[u8],
    ) -> Result<(), NoMemory> {
        let init = self.init(header.sends.len(), place);
        match header.kind {
            Kind::Hard => {
                let mut bits = bits_in(alloc, m, bytes)?;
                scramble_bits(bits.as_mut_slice(), init);
                text.extend_from_slice(pack(alloc, bits.as_slice())?.as_slice())?;
                Ok(())
            }
            Kind::Soft => {
                let mut softs = softs_of(alloc, bytes)?;
                turn_softs(softs.as_mut_slice(), init);
                push_bytes(text, softs.as_slice())
            }
        }
    }
}
