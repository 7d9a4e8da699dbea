//! The arguments of `trial`.
ghost use Rattle.std.specs.Prelude.{◌≡◌, ◌≤◌, IfOk};
ghost use Rattle.model_receiver.specs.Limits.{AreLimits};
ghost use Rattle.soft_channel.specs.Channel.{IsChannel};
ghost use Rattle.command_words.specs.Blocks.{blocks_given};
ghost use Rattle.command_words.specs.Lawful.{IsLawful};
ghost use Rattle.command_words.specs.Texts.{texts_of};
ghost use Rattle.command_words.specs.Transmissions.{AreGiven, version_in};
ghost use Rattle.command_words.specs.Commands.{trial_with, trial_of};

use crate::blocks::{asked_of, blocks_given};
use crate::operands::{WordRefusal, first_fault, missing, number_given};
use crate::rules::Form;
use crate::settings::{decoder_limits, noise_channel};
use crate::tables::{BLOCKS_NUMBER, TRIAL};
use crate::transmissions::Asked;
use crate::words::Command;
use coded_stream::Version;
use model_receiver::DecoderLimits;
use soft_channel::NoiseChannel;

/// Returns the trial of `count` of these blocks.
fn trial_given(
    asked: &Asked,
    channel: NoiseChannel,
    limits: DecoderLimits,
    count: usize,
) -> Result<Command, WordRefusal>
    requires given { AreGiven asked.now }
    requires single { version_in asked.now.lists ≡ Version.One }
    requires channel { IsChannel channel }
    requires limits { AreLimits limits }
    requires some { 1 ≤ count }
    requires few { count ≤ 4096 }
    ensures command { result ≡ trial_with channel limits count (blocks_given asked.now) }
    ensures lawful { IfOk result IsLawful }
{
    match blocks_given(asked) {
        Ok(blocks) => Ok(Command::Trial {
            blocks: count,
            tb: blocks.tb,
            sends: blocks.sends,
            channel,
            limits,
        }),
        Err(refusal) => Err(refusal),
    }
}

/// Parses the arguments after `trial`.
pub fn trial_of(operands: &[&str]) -> Result<Command, WordRefusal>
    ensures command { result ≡ trial_of (texts_of operands.now) }
    ensures lawful { IfOk result IsLawful }
{
    if let Some(refusal) = first_fault(&TRIAL, operands) {
        return Err(refusal);
    }
    let asked = asked_of(Form::Number, operands);
    let channel = noise_channel(operands);
    let limits = decoder_limits(operands);
    let count = number_given(&BLOCKS_NUMBER, operands);
    match (asked, channel, limits, count) {
        (Some(asked), Some(channel), Some(limits), Some(count)) => {
            trial_given(&asked, channel, limits, count as usize)
        }
        _ => Err(missing(operands)),
    }
}
