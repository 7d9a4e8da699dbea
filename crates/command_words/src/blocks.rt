//! The blocks that the arguments of `encode` and `trial` ask for.
ghost use Rattle.std.specs.Prelude.{◌≡◌, IfOk, IfSome};
ghost use Rattle.coded_stream.specs.Header.{AreHeld};
ghost use Rattle.command_words.specs.Blocks.{lists_of, asked_of, blocks_given};
ghost use Rattle.command_words.specs.Lawful.{AreForBlocks};
ghost use Rattle.command_words.specs.Texts.{texts_of};
ghost use Rattle.command_words.specs.Transmissions.{AreGiven, AreListsGiven, version_in};

use crate::operands::{WordRefusal, given};
use crate::rules::Form;
use crate::transmission_tables::{G_NUMBER, NIR_NUMBER, NL_NUMBER, QM_NUMBER, RV_LIST, TB_NUMBER};
use crate::transmissions::{Asked, Lists, transmissions_given};
use coded_stream::Version;
use rate_match::{Sends, fits};

/// The version of the container that holds the blocks, the bytes of each, of which the last may be
/// shorter, and the transmissions of each.
#[derive(Clone, Copy, Debug)]
pub struct CodedBlocks {
    pub version: Version,
    pub tb: usize,
    pub sends: Sends,
}

/// Returns G, Q_m and N_L in one form.
fn lists_of(form: Form, operands: &[&str]) -> Option<Lists>
    ensures lists { result ≡ lists_of form (texts_of operands.now) }
    ensures given { IfSome result AreListsGiven }
    ensures single { form ≡ Form.Number → IfSome result (λ lists. version_in lists ≡ Version.One) }
{
    let g = given(&G_NUMBER.in_form(form), operands);
    let qm = given(&QM_NUMBER.in_form(form), operands);
    let nl = given(&NL_NUMBER.in_form(form), operands);
    match (g, qm, nl) {
        (Some(g), Some(qm), Some(nl)) => Some(Lists { g, qm, nl }),
        _ => None,
    }
}

/// Returns the operands' values for the blocks and their transmissions, with G, Q_m and N_L in one form.
pub fn asked_of(form: Form, operands: &[&str]) -> Option<Asked>
    ensures asked { result ≡ asked_of form (texts_of operands.now) }
    ensures given { IfSome result AreGiven }
    ensures single { form ≡ Form.Number → IfSome result (λ asked. version_in asked.lists ≡ Version.One) }
{
    let lists = lists_of(form, operands);
    let rv = given(&RV_LIST, operands);
    let tb = given(&TB_NUMBER, operands);
    let nir = given(&NIR_NUMBER, operands);
    match (lists, rv, tb, nir) {
        (Some(lists), Some(rv), Some(tb), Some(nir)) => Some(Asked { lists, rv, tb, nir }),
        _ => None,
    }
}

/// Returns the blocks of these operands.
pub fn blocks_given(asked: &Asked) -> Result<CodedBlocks, WordRefusal>
    requires { AreGiven asked.now }
    ensures blocks { result ≡ blocks_given asked.now }
    ensures fit { IfOk result (λ blocks. AreForBlocks blocks.tb blocks.sends) }
    ensures held { IfOk result (λ blocks. AreHeld blocks.version blocks.sends) }
    ensures version { IfOk result (λ blocks. blocks.version ≡ version_in asked.now.lists) }
{
    if let Some(place) = asked.lists.uneven(asked.rv.numbers.len()) {
        return Err(WordRefusal { number: 7, place });
    }
    let tb = asked.tb.numbers.at(0) as usize;
    match transmissions_given(asked) {
        Some(sends) => {
            if fits(&sends.at(0).0, tb) {
                Ok(CodedBlocks {
                    version: asked.lists.version(),
                    tb,
                    sends,
                })
            } else {
                Err(WordRefusal {
                    number: 8,
                    place: asked.nir.place,
                })
            }
        }
        None => Err(WordRefusal {
            number: 7,
            place: asked.lists.g.place,
        }),
    }
}
