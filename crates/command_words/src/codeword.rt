//! The arguments of `codeword`.
ghost use Rattle.std.specs.Prelude.{◌≡◌, IfOk};
ghost use Rattle.command_words.specs.Given.{IsGiven};
ghost use Rattle.command_words.specs.Lawful.{IsLawful};
ghost use Rattle.command_words.specs.Tables.{g_number, qm_number, rv_of_one};
ghost use Rattle.command_words.specs.Texts.{texts_of};
ghost use Rattle.command_words.specs.Commands.{codeword_given, codeword_of};

use crate::operands::{Operand, WordRefusal, first_fault, given, missing};
use crate::tables::CODEWORD;
use crate::transmission_tables::{G_NUMBER, QM_NUMBER, RV_OF_ONE};
use crate::words::Command;
use rate_match::{Buffer, Match};

/// Returns the codeword of these operands.
fn codeword_given(g: &Operand, qm: &Operand, rv: &Operand) -> Result<Command, WordRefusal>
    requires g { IsGiven g_number g.now.numbers }
    requires qm { IsGiven qm_number qm.now.numbers }
    requires rv { IsGiven rv_of_one rv.now.numbers }
    ensures command { result ≡ codeword_given g.now qm.now rv.now }
    ensures lawful { IfOk result IsLawful }
{
    let bits = g.numbers.at(0) as u32;
    let version = rv.numbers.at(0) as u8;
    match Match::new(qm.numbers.at(0) as u8, 1, bits, Buffer::Full) {
        Ok(m) => Ok(Command::Codeword { m, rv: version }),
        Err(_) => Err(WordRefusal {
            number: 7,
            place: g.place,
        }),
    }
}

/// Parses the arguments after `codeword`.
pub fn codeword_of(operands: &[&str]) -> Result<Command, WordRefusal>
    ensures command { result ≡ codeword_of (texts_of operands.now) }
    ensures lawful { IfOk result IsLawful }
{
    if let Some(refusal) = first_fault(&CODEWORD, operands) {
        return Err(refusal);
    }
    let g = given(&G_NUMBER, operands);
    let qm = given(&QM_NUMBER, operands);
    let rv = given(&RV_OF_ONE, operands);
    match (g, qm, rv) {
        (Some(g), Some(qm), Some(rv)) => codeword_given(&g, &qm, &rv),
        _ => Err(missing(operands)),
    }
}
