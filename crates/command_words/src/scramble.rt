//! The arguments of `scramble`.
ghost use Rattle.std.specs.Prelude.{◌≡◌, IfOk};
ghost use Rattle.command_words.specs.Lawful.{IsLawful};
ghost use Rattle.command_words.specs.Texts.{texts_of};
ghost use Rattle.command_words.specs.Commands.{scramble_of};

use crate::operands::{WordRefusal, first_fault, missing, number_given};
use crate::tables::{CELL_NUMBER, Q_NUMBER, RNTI_NUMBER, SCRAMBLE, SLOT_NUMBER};
use crate::words::Command;

/// Parses the arguments after `scramble`.
pub fn scramble_of(operands: &[&str]) -> Result<Command, WordRefusal>
    ensures command { result ≡ scramble_of (texts_of operands.now) }
    ensures lawful { IfOk result IsLawful }
{
    if let Some(refusal) = first_fault(&SCRAMBLE, operands) {
        return Err(refusal);
    }
    let rnti = number_given(&RNTI_NUMBER, operands);
    let q = number_given(&Q_NUMBER, operands);
    let slot = number_given(&SLOT_NUMBER, operands);
    let cell = number_given(&CELL_NUMBER, operands);
    match (rnti, q, slot, cell) {
        (Some(rnti), Some(q), Some(slot), Some(cell)) => Ok(Command::Scramble {
            rnti: rnti as u16,
            q: q as u8,
            slot: slot as u8,
            cell: cell as u16,
        }),
        _ => Err(missing(operands)),
    }
}
