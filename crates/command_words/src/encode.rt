//! The arguments of `encode`.
ghost use Rattle.std.specs.Prelude.{◌≡◌, IfOk};
ghost use Rattle.command_words.specs.Blocks.{blocks_given};
ghost use Rattle.command_words.specs.Lawful.{IsLawful};
ghost use Rattle.command_words.specs.Texts.{texts_of};
ghost use Rattle.command_words.specs.Transmissions.{AreGiven};
ghost use Rattle.command_words.specs.Commands.{encode_with, encode_of};

use crate::blocks::{asked_of, blocks_given};
use crate::operands::{WordRefusal, first_fault, missing};
use crate::rules::Form;
use crate::tables::ENCODE;
use crate::transmissions::Asked;
use crate::words::Command;

/// Returns the stream of these blocks.
fn encode_given(asked: &Asked) -> Result<Command, WordRefusal>
    requires { AreGiven asked.now }
    ensures command { result ≡ encode_with (blocks_given asked.now) }
    ensures lawful { IfOk result IsLawful }
{
    match blocks_given(asked) {
        Ok(blocks) => Ok(Command::Encode {
            version: blocks.version,
            tb: blocks.tb,
            sends: blocks.sends,
        }),
        Err(refusal) => Err(refusal),
    }
}

/// Parses the arguments after `encode`.
pub fn encode_of(operands: &[&str]) -> Result<Command, WordRefusal>
    ensures command { result ≡ encode_of (texts_of operands.now) }
    ensures lawful { IfOk result IsLawful }
{
    if let Some(refusal) = first_fault(&ENCODE, operands) {
        return Err(refusal);
    }
    match asked_of(Form::ForTransmissions, operands) {
        Some(asked) => encode_given(&asked),
        None => Err(missing(operands)),
    }
}
