//! One to eight transmissions of a transport block.
ghost use Rattle.std.specs.Prelude.{◌≡◌, ◌≤◌, IfOk, OnOk, length, sum_by};
ghost use Rattle.std.specs.Result.{result_err};
ghost use Rattle.model_sender.specs.Segmentation.{plan_of};
ghost use Rattle.rate_match.specs.Matching.{limit_of};
ghost use Rattle.gomzelat_c.specs.Tests.{byte_count, first_failed, series_tests};
ghost use Rattle.gomzelat_c.specs.Transmissions.{transmissions_of};

use crate::refusal::{Refusal, accept};
use crate::transmission::{Transmission, sends_of};
use rate_match::{Buffer, Sends};
use segmentation::plan;
use segmentation::plans::Plan;

/// The plan of a payload, and its transmissions.
#[derive(Clone, Copy)]
pub struct Series {
    pub plan: Plan,
    pub sends: Sends,
}

/// Returns the transmissions of a payload of `bytes` bytes, or the refusal. The caller's transmissions are
/// read only here, each once, so that the values used are those tested.
pub fn series_of(
    bytes: usize,
    transmissions: &[Transmission],
    buffer: Buffer,
) -> Result<Series, Refusal>
    ensures refused { result_err result ≡ first_failed (series_tests bytes transmissions.now) }
    ensures plan { IfOk result (λ series. series.plan ≡ plan_of bytes) }
    ensures bytes { IfOk result (λ series. series.plan.bytes ≡ bytes) }
    ensures sends { IfOk result
        (λ series. series.sends ≡ transmissions_of (limit_of buffer) transmissions.now) }
    ensures some { OnOk result (1 ≤ bytes) }
    ensures few { OnOk result (bytes ≤ 18722) }
    ensures count { OnOk result (1 ≤ length transmissions.now) }
{
    let plan = plan(bytes)?;
    accept((1..=8).contains(&transmissions.len()), Refusal::BadCount)?;
    let sends = sends_of(transmissions, buffer)?;
    Ok(Series { plan, sends })
}

/// Returns the bits of all transmissions.
pub fn bit_count(sends: &Sends) -> usize
    ensures { result ≡ sum_by (λ s. s.m.g) sends.now }
{
    let mut bits = 0;
    for i in 0..sends.len() {
        let (m, _) = sends.at(i);
        bits += m.g();
    }
    bits
}

/// Returns the bytes of all transmissions, each of which begins at a byte.
pub fn byte_count(sends: &Sends) -> usize
    ensures { result ≡ sum_by (λ s. byte_count s.m.g) sends.now }
{
    let mut bytes = 0;
    for i in 0..sends.len() {
        let (m, _) = sends.at(i);
        bytes += m.g().div_ceil(8);
    }
    bytes
}
