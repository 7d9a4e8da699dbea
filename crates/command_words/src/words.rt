//! The command that the arguments ask for.
ghost use Rattle.std.specs.Prelude.{◌≡◌, IfOk, Some};
ghost use Rattle.command_words.specs.Lawful.{IsLawful};
ghost use Rattle.command_words.specs.Texts.{texts_of};
ghost use Rattle.command_words.specs.Words.{command_of, command_with};

use crate::codeword::codeword_of;
use crate::encode::encode_of;
use crate::names::{CommandName, command_named};
use crate::operands::WordRefusal;
use crate::scramble::scramble_of;
use crate::stream_words::{batch_of, channel_of, decode_of, points_of, upgrade_of};
use crate::trial::trial_of;
use coded_stream::Version;
use model_receiver::DecoderLimits;
use rate_match::{Match, Sends};
use soft_channel::NoiseChannel;

/// A command with what its arguments gave.
#[derive(Clone, Copy, Debug, PartialEq, Eq)]
pub enum Command {
    /// The codeword of one transport block: the rate matching, over a full buffer, and the
    /// redundancy version.
    Codeword {
        m: Match,
        rv: u8,
    },
    /// A hard stream of the coded blocks of an input: the version of the container, the bytes of
    /// each block, of which the last may be shorter, and the transmissions of each.
    Encode {
        version: Version,
        tb: usize,
        sends: Sends,
    },
    /// The payloads of a soft stream: the limits of the decoder, and the threads that decode, 1 to 16.
    Decode {
        limits: DecoderLimits,
        workers: usize,
    },
    /// The payloads of a soft stream, with several transport blocks decoded at once: the threads
    /// that decode transport blocks, 1 to 8, and the limits of the decoder.
    Batch {
        pipes: usize,
        limits: DecoderLimits,
    },
    /// A hard stream as soft values that come over a channel.
    Channel(NoiseChannel),
    /// A stream in the second version of the container.
    Upgrade,
    /// So many blocks, 1 to 4,096, drawn from the seed of a channel, and sent over it, received and
    /// decoded: the bytes of each and the transmissions of each, all with one rate matching, the
    /// channel, and the limits of the decoder.
    Trial {
        blocks: usize,
        tb: usize,
        sends: Sends,
        channel: NoiseChannel,
        limits: DecoderLimits,
    },
    /// A stream with its hard bits scrambled or its soft values descrambled (36.211 6.3.1): n_RNTI, the
    /// codeword's number 0 or 1, the first slot 0 to 19, and the cell's identity 0 to 503.
    Scramble {
        rnti: u16,
        q: u8,
        slot: u8,
        cell: u16,
    },
    /// A hard stream as soft values of constellation points that come over a channel (36.211 7.1).
    Points(NoiseChannel),
}

/// Parses the arguments after a command's name.
fn command_with(name: CommandName, operands: &[&str]) -> Result<Command, WordRefusal>
    ensures command { result ≡ command_with (Some name) (texts_of operands.now) }
    ensures lawful { IfOk result IsLawful }
{
    match name {
        CommandName::Codeword => codeword_of(operands),
        CommandName::Encode => encode_of(operands),
        CommandName::Decode => decode_of(operands),
        CommandName::Batch => batch_of(operands),
        CommandName::Channel => channel_of(operands),
        CommandName::Upgrade => upgrade_of(operands),
        CommandName::Trial => trial_of(operands),
        CommandName::Scramble => scramble_of(operands),
        CommandName::Points => points_of(operands),
    }
}

/// Returns the command that the arguments ask for, or the first of them that is refused.
pub fn read_words(words: &[&str]) -> Result<Command, WordRefusal>
    ensures command { result ≡ command_of (texts_of words.now) }
    ensures lawful { IfOk result IsLawful }
{
    match words {
        [] => Err(WordRefusal {
            number: 1,
            place: 0,
        }),
        [name, operands @ ..] => match command_named(name) {
            Some(name) => command_with(name, operands),
            None => Err(WordRefusal {
                number: 2,
                place: 0,
            }),
        },
    }
}
