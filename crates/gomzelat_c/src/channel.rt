//! A channel with noise, and payloads, both from a seed.
ghost use Rattle.std.specs.Prelude.{◌≡◌, ◌≢◌, ◌≤◌, IfOk, OnOk, OnErr, length, [], ◌∷◌};
ghost use Rattle.std.specs.Result.{result_err};
ghost use Rattle.soft_channel.specs.TrialPayload.{trial_payload};
ghost use Rattle.gomzelat_c.specs.Buffers.{with_front};
ghost use Rattle.gomzelat_c.specs.Noise.{noise_channel, noisy_bits};
ghost use Rattle.gomzelat_c.specs.Refusals.{IsDone, IsTold};
ghost use Rattle.gomzelat_c.specs.Tests.{byte_count, first_failed, length_test, noise_tests};

use crate::buffers::{bits_of, write_bytes, write_softs};
use crate::refusal::{Refusal, accept, told};
use segmentation::MOST_BYTES;
use soft_channel::{NoiseChannel, payload};
use std::alloc::Global;

/// A channel: the seed that its noise comes from; the amplitude of sent bits, 1 to 127; and the noise on
/// them, 0 to 127, about its standard deviation.
#[repr(C)]
#[derive(Clone, Copy, Debug)]
pub struct Channel {
    pub seed: u64,
    pub amp: u32,
    pub noise: u32,
}

/// Returns the channel of `count` bits of a transmission, or the refusal.
fn accepted(
    count: usize,
    bytes: usize,
    channel: &Channel,
    number: u32,
    room: usize,
) -> Result<NoiseChannel, Refusal>
    ensures refused { result_err result ≡ first_failed (noise_tests count bytes channel.now number room) }
    ensures channel { IfOk result (λ own. own ≡ noise_channel channel.now) }
    ensures number { OnOk result (number ≤ 7) }
    ensures room { OnOk result (count ≤ room) }
{
    accept(count.div_ceil(8) <= bytes, Refusal::BadBits)?;
    accept((1..=127).contains(&channel.amp), Refusal::BadAmp)?;
    accept(channel.noise <= 127, Refusal::BadNoise)?;
    accept(number <= 7, Refusal::BadNumber)?;
    accept(count <= room, Refusal::ShortOutput)?;
    Ok(NoiseChannel {
        amp: channel.amp as u8,
        noise: channel.noise as u8,
        seed: channel.seed,
    })
}

fn write_noisy(
    alloc: Global,
    bits: &[u8],
    count: usize,
    channel: &Channel,
    block: u32,
    number: u32,
    out: &mut [i8],
) -> Result<(), Refusal>
    ensures answer { IsDone result (first_failed
        (noise_tests count (length bits.now) channel.now number (length out.old))) }
    ensures softs { OnOk result (out.new
        ≡ with_front (noisy_bits count bits.now channel.now block number) out.old) }
    ensures kept { OnErr result (out.new ≡ out.old) }
{
    let channel = accepted(count, bits.len(), channel, number, out.len())?;
    let bits = bits_of(alloc, count, bits)?;
    let softs = channel.noisy(alloc, bits.as_slice(), block, number as u8)?;
    write_softs(out, softs.as_slice());
    Ok(())
}

/// Writes to the beginning of `out` a soft value, -127 to 127, for each of the first `count` bits of `bits`,
/// packed most significant bit first, as received in transmission `number`, 0 to 7, of a block, both counted
/// from 0. Returns 0, or a `Refusal`'s number with nothing changed.
#[unsafe(no_mangle)]
pub extern "C" fn gomzelat_noisy(
    alloc: Global,
    bits: &[u8],
    count: usize,
    channel: Channel,
    block: u32,
    number: u32,
    out: &mut [i8],
) -> u32
    ensures answer { IsTold result (first_failed
        (noise_tests count (length bits.now) channel number (length out.old))) }
    ensures softs { result ≡ 0 → out.new
        ≡ with_front (noisy_bits count bits.now channel block number) out.old }
    ensures kept { result ≢ 0 → out.new ≡ out.old }
{
    told(write_noisy(alloc, bits, count, &channel, block, number, out))
}

#[tactic(auto, using(soft_channel::proofs::Lengths::length_trial_payload))]
fn write_payload(alloc: Global, seed: u64, block: u32, out: &mut [u8]) -> Result<(), Refusal>
    ensures answer { IsDone result (first_failed (length_test (length out.old) ∷ [])) }
    ensures payload { OnOk result (out.new ≡ trial_payload seed block (length out.old)) }
    ensures kept { OnErr result (out.new ≡ out.old) }
{
    accept((1..=MOST_BYTES).contains(&out.len()), Refusal::BadLength)?;
    let bytes = payload(alloc, out.len(), seed, block)?;
    write_bytes(out, bytes.as_slice());
    Ok(())
}

/// Fills `out`, of 1 to 18,722 bytes, with the payload of a trial's block, counted from 0. Returns 0, or a
/// `Refusal`'s number with nothing changed.
#[unsafe(no_mangle)]
pub extern "C" fn gomzelat_trial_payload(
    alloc: Global,
    seed: u64,
    block: u32,
    out: &mut [u8],
) -> u32
    ensures answer { IsTold result (first_failed (length_test (length out.old) ∷ [])) }
    ensures payload { result ≡ 0 → out.new ≡ trial_payload seed block (length out.old) }
    ensures kept { result ≢ 0 → out.new ≡ out.old }
{
    told(write_payload(alloc, seed, block, out))
}
