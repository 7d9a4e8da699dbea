//! `upgrade`, transmission by transmission.
use crate::converter::{Converter, Place};
use coded_stream::{Header, Version, Want};
use lte_bits::NoMemory;
use rate_match::Match;
use std::alloc::Global;

/// The same blocks in version Two of the container.
#[derive(Clone, Copy, Debug, Drop)]
pub struct Upgrade;

impl Converter for Upgrade {
    ghost use Rattle.command_relay.specs.Upgrade.{as_read};

    ghost conversion = { λ _. as_read };

    fn want(&self) -> Want {
        Want::Any
    }

    fn header(&self, header: &Header) -> Header {
        Header {
            version: Version::Two,
            kind: header.kind,
            tb: header.tb,
            sends: header.sends,
        }
    }

    fn push(
        &self,
        _alloc: Global,
        text: &mut Vec<u8>,
        _header: &Header,
        _place: Place,
        _m: &Match,
        bytes: &[u8],
    ) -> Result<(), NoMemory> {
        text.extend_from_slice(bytes)?;
        Ok(())
    }
}
