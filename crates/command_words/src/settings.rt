//! The channel and the limits of the decoder.
ghost use Rattle.std.specs.Prelude.{◌≡◌, IfSome};
ghost use Rattle.model_receiver.specs.Limits.{AreLimits};
ghost use Rattle.soft_channel.specs.Channel.{IsChannel};
ghost use Rattle.command_words.specs.Settings.{decoder_limits, noise_channel};
ghost use Rattle.command_words.specs.Texts.{texts_of};

use crate::operands::number_given;
use crate::tables::{AMP_NUMBER, LIMIT_NUMBER, NOISE_NUMBER, SEED_NUMBER, WINDOWS_NUMBER};
use model_receiver::DecoderLimits;
use soft_channel::NoiseChannel;

/// Returns the channel of these operands.
pub fn noise_channel(operands: &[&str]) -> Option<NoiseChannel>
    ensures value { result ≡ noise_channel (texts_of operands.now) }
    ensures lawful { IfSome result IsChannel }
{
    let amp = number_given(&AMP_NUMBER, operands);
    let noise = number_given(&NOISE_NUMBER, operands);
    let seed = number_given(&SEED_NUMBER, operands);
    match (amp, noise, seed) {
        (Some(amp), Some(noise), Some(seed)) => Some(NoiseChannel {
            amp: amp as u8,
            noise: noise as u8,
            seed,
        }),
        _ => None,
    }
}

/// Returns the limits of the decoder.
pub fn decoder_limits(operands: &[&str]) -> Option<DecoderLimits>
    ensures value { result ≡ decoder_limits (texts_of operands.now) }
    ensures lawful { IfSome result AreLimits }
{
    let windows = number_given(&WINDOWS_NUMBER, operands);
    let limit = number_given(&LIMIT_NUMBER, operands);
    match (windows, limit) {
        (Some(windows), Some(limit)) => Some(DecoderLimits {
            windows: windows as usize,
            limit: limit as usize,
        }),
        _ => None,
    }
}
