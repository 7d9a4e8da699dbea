//! A caller's transmission.
ghost use Rattle.std.specs.Prelude.{◌≡◌, ◌≤◌, min, IfOk, length, flat_map};
ghost use Rattle.std.specs.Result.{result_err};
ghost use Rattle.rate_match.specs.Matching.{limit_of};
ghost use Rattle.gomzelat_c.specs.Transmissions.{limit_in, transmission_of, transmissions_of};
ghost use Rattle.gomzelat_c.specs.Tests.{first_failed, transmission_tests};

use crate::refusal::{Refusal, accept};
use rate_match::sends::Sending;
use rate_match::{Buffer, Match, Sends};

/// One transmission: Q_m, 2, 4 or 6; N_L, 1 or 2; G, 1 to 1,000,000 and a multiple of N_L * Q_m; and the
/// redundancy version, 0 to 3.
#[repr(C)]
#[derive(Clone, Copy, Debug)]
pub struct Transmission {
    pub qm: u32,
    pub nl: u32,
    pub g: u32,
    pub rv: u32,
}

/// Returns the soft buffer of N_IR soft values; 0 means a full one.
pub fn buffer_of(n_ir: u32) -> Buffer
    ensures { limit_of result ≡ limit_in n_ir }
{
    if n_ir == 0 {
        Buffer::Full
    } else {
        Buffer::Limited(n_ir)
    }
}

/// Returns the number, or 255 where it is greater: neither Q_m nor N_L is.
fn in_a_byte(n: u32) -> u8
    ensures { result ≡ min n 255 }
{
    n.min(255) as u8
}

impl Transmission {
    /// Returns the transmission with a soft buffer, or the refusal. It is passed by value, since what a
    /// caller's memory holds may change between two readings.
    pub fn sending(self, buffer: Buffer) -> Result<Sending, Refusal>
        ensures refused { result_err result ≡ first_failed (transmission_tests self) }
        ensures sending { IfOk result (λ sending. sending ≡ transmission_of (limit_of buffer) self) }
    {
        let m = Match::new(in_a_byte(self.qm), in_a_byte(self.nl), self.g, buffer)?;
        accept(self.rv <= 3, Refusal::BadVersion)?;
        Ok(Sending {
            m,
            rv: self.rv as u8,
        })
    }
}

/// Returns one to eight transmissions with one soft buffer, or the refusal. Each is read once.
pub fn sends_of(transmissions: &[Transmission], buffer: Buffer) -> Result<Sends, Refusal>
    requires some { 1 ≤ length transmissions.now }
    requires few { length transmissions.now ≤ 8 }
    ensures refused { result_err result ≡ first_failed (flat_map transmission_tests transmissions.now) }
    ensures sends { IfOk result (λ sends. sends ≡ transmissions_of (limit_of buffer) transmissions.now) }
{
    let first = transmissions[0].sending(buffer)?;
    let mut sends = Sends::one(first.m, first.rv).unwrap();
    for transmission in &transmissions[1..] {
        let sending = transmission.sending(buffer)?;
        let _added = sends.add(sending.m, sending.rv);
    }
    Ok(sends)
}
