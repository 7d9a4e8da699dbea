//! Blocks encoded for a time.
ghost use Rattle.std.specs.Prelude.{◌≡◌, IfOk};
ghost use Rattle.model_sender.specs.Codeword.{codeword};
ghost use Rattle.model_sender.specs.CodedStreams.{streams};
ghost use Rattle.encode_speed.specs.Sample.{matching, sample, sample_payload};

use crate::fault::Fault;
use crate::sample::{BYTES, SIZE, matching, sample, sample_payload};
use lte_bits::{Bit, List, Streams};
use rate_match::codeword;
use std::fmt;
use std::time::{Duration, Instant};
use turbo_encode::encode;

/// How often a block of `bits` bits was encoded, and how long it took.
#[derive(Clone, Copy)]
pub struct Timing {
    bits: usize,
    count: u32,
    elapsed: Duration,
}

impl fmt::Display for Timing {
    fn fmt<W: fmt::Write>(&self, f: &mut fmt::Formatter<W>) -> fmt::Result {
        let bits = u128::from(self.count) * self.bits as u128;
        let tenths = bits * 10 / self.elapsed.as_micros().max(1);
        let (whole, tenth) = (tenths / 10, tenths % 10);
        write!(f, "{} blocks, {whole}.{tenth} Mbit/s", self.count)
    }
}

/// The last streams of a code block.
#[derive(Drop)]
pub struct Encoded {
    pub timing: Timing,
    pub streams: Streams,
}

/// Encodes the code block until `time` has passed, and once at least.
pub fn encode_for(rt: &HostRuntime, time: Duration) -> Result<Encoded, Fault>
    ensures { IfOk result (λ run. run.streams ≡ streams (sample SIZE)) }
{
    let block = sample(rt.alloc(), SIZE)?;
    let start = Instant::now(rt)?;
    for count in 1..u32::MAX {
        let streams = encode(rt.alloc(), &block)?;
        let elapsed = start.elapsed(rt)?;
        if elapsed >= time {
            let timing = Timing {
                bits: SIZE,
                count,
                elapsed,
            };
            return Ok(Encoded { timing, streams });
        }
    }
    Err(Fault::TimeTooLong)
}

/// The last codeword of a transport block.
#[derive(Drop)]
pub struct Sent {
    pub timing: Timing,
    pub bits: List<Bit>,
}

/// Sends the transport block until `time` has passed, and once at least.
pub fn send_for(rt: &HostRuntime, time: Duration) -> Result<Sent, Fault>
    ensures { IfOk result (λ run. run.bits ≡ codeword (sample_payload BYTES) matching 0) }
{
    let payload = sample_payload(rt.alloc(), BYTES)?;
    let m = matching();
    let start = Instant::now(rt)?;
    for count in 1..u32::MAX {
        let bits = codeword(rt.alloc(), &payload, &m, 0)?;
        let elapsed = start.elapsed(rt)?;
        if elapsed >= time {
            let timing = Timing {
                bits: 8 * BYTES,
                count,
                elapsed,
            };
            return Ok(Sent { timing, bits });
        }
    }
    Err(Fault::TimeTooLong)
}
