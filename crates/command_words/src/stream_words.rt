//! The arguments of `decode`, `batch`, `channel`, `points` and `upgrade`, which read a stream.
ghost use Rattle.std.specs.Prelude.{◌≡◌, IfOk};
ghost use Rattle.soft_channel.specs.Channel.{IsChannel};
ghost use Rattle.command_words.specs.Lawful.{IsLawful};
ghost use Rattle.command_words.specs.Texts.{texts_of};
ghost use Rattle.command_words.specs.Commands.{batch_of, decode_of, upgrade_of};
ghost use Rattle.command_words.specs.Commands.{channel_asked, channel_of, points_of};

use crate::operands::{WordRefusal, first_fault, missing, number_given};
use crate::settings::{decoder_limits, noise_channel};
use crate::tables::{BATCH, CHANNEL, DECODE, PIPES_NUMBER, UPGRADE, WORKERS_NUMBER};
use crate::words::Command;
use soft_channel::NoiseChannel;

/// Parses the arguments after `decode`.
pub fn decode_of(operands: &[&str]) -> Result<Command, WordRefusal>
    ensures command { result ≡ decode_of (texts_of operands.now) }
    ensures lawful { IfOk result IsLawful }
{
    if let Some(refusal) = first_fault(&DECODE, operands) {
        return Err(refusal);
    }
    let limits = decoder_limits(operands);
    let workers = number_given(&WORKERS_NUMBER, operands);
    match (limits, workers) {
        (Some(limits), Some(workers)) => Ok(Command::Decode {
            limits,
            workers: workers as usize,
        }),
        _ => Err(missing(operands)),
    }
}

/// Parses the arguments after `batch`.
pub fn batch_of(operands: &[&str]) -> Result<Command, WordRefusal>
    ensures command { result ≡ batch_of (texts_of operands.now) }
    ensures lawful { IfOk result IsLawful }
{
    if let Some(refusal) = first_fault(&BATCH, operands) {
        return Err(refusal);
    }
    let limits = decoder_limits(operands);
    let pipes = number_given(&PIPES_NUMBER, operands);
    match (limits, pipes) {
        (Some(limits), Some(pipes)) => Ok(Command::Batch {
            pipes: pipes as usize,
            limits,
        }),
        _ => Err(missing(operands)),
    }
}

/// Returns the channel, if there are no other operands.
fn channel_asked(operands: &[&str]) -> Result<NoiseChannel, WordRefusal>
    ensures value { result ≡ channel_asked (texts_of operands.now) }
    ensures lawful { IfOk result IsChannel }
{
    if let Some(refusal) = first_fault(&CHANNEL, operands) {
        return Err(refusal);
    }
    match noise_channel(operands) {
        Some(channel) => Ok(channel),
        None => Err(missing(operands)),
    }
}

/// Parses the arguments after `channel`.
pub fn channel_of(operands: &[&str]) -> Result<Command, WordRefusal>
    ensures command { result ≡ channel_of (texts_of operands.now) }
    ensures lawful { IfOk result IsLawful }
{
    match channel_asked(operands) {
        Ok(channel) => Ok(Command::Channel(channel)),
        Err(refusal) => Err(refusal),
    }
}

/// Parses the arguments after `points`.
pub fn points_of(operands: &[&str]) -> Result<Command, WordRefusal>
    ensures command { result ≡ points_of (texts_of operands.now) }
    ensures lawful { IfOk result IsLawful }
{
    match channel_asked(operands) {
        Ok(channel) => Ok(Command::Points(channel)),
        Err(refusal) => Err(refusal),
    }
}

/// Parses the arguments after `upgrade`.
pub fn upgrade_of(operands: &[&str]) -> Result<Command, WordRefusal>
    ensures command { result ≡ upgrade_of (texts_of operands.now) }
    ensures lawful { IfOk result IsLawful }
{
    match first_fault(&UPGRADE, operands) {
        Some(refusal) => Err(refusal),
        None => Ok(Command::Upgrade),
    }
}
