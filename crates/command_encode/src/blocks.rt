//! The blocks of a hard stream.
ghost use Rattle.std.specs.Prelude.{◌≡◌, ◌≤◌, [], ◌∷◌, ◌++◌, IfOk, length};
ghost use Rattle.model_sender.specs.Segmentation.{plan_of};
ghost use Rattle.model_sender.specs.CircularBuffer.{Fits};
ghost use Rattle.run_loop.specs.Step.{part_of};
ghost use Rattle.coded_stream.specs.Header.{word_text};
ghost use Rattle.coded_stream.specs.Shown.{header_of};
ghost use Rattle.command_encode.specs.Encode.{sent_text, block_text, block_part};

use coded_stream::{Header, length_word};
use lte_bits::{NoMemory, pack};
use rate_match::{Coded, Match};
use run_loop::Part;
use std::alloc::Global;

/// Appends the codeword of one transmission.
fn push_codeword(
    alloc: Global,
    text: &mut Vec<u8>,
    coded: &Coded,
    m: &Match,
    rv: u8,
) -> Result<(), NoMemory>
    requires fits { Fits m.now (plan_of (length coded.now)) }
    requires version { rv ≤ 3 }
    ensures { IfOk result (λ _. text.new.items
        ≡ text.old.items ++ sent_text coded.now (record { m = m.now; rv = rv })) }
{
    let bits = coded.codeword(alloc, m, rv)?;
    let bytes = pack(alloc, bits.as_slice())?;
    text.extend_from_slice(bytes.as_slice())?;
    Ok(())
}

/// Returns the length word and the transmissions of a payload.
#[tactic(auto, using(rate_match::proofs::EachSending::fits_at, rate_match::proofs::EachSending::version_at))]
fn block_text(alloc: Global, payload: &[u8], header: &Header) -> Result<Vec<u8>, NoMemory>
    requires some { 1 ≤ length payload.now }
    requires few { length payload.now ≤ header.now.tb }
    ensures { IfOk result (λ text. text.items ≡ block_text header.now.sends payload.now) }
{
    let coded = Coded::new(alloc, payload)?;
    let mut text = length_word(alloc, payload.len() as u32)?;
    for i in 0..header.sends.len() {
        let (m, rv) = header.sends.at(i);
        push_codeword(alloc, &mut text, &coded, &m, rv)?;
    }
    Ok(text)
}

/// Returns the block of a payload, final once `wants` bytes have been read.
pub fn block(alloc: Global, payload: &[u8], header: &Header, wants: usize) -> Result<Part, NoMemory>
    requires some { 1 ≤ length payload.now }
    requires few { length payload.now ≤ header.now.tb }
    ensures { IfOk result (λ part. part_of part ≡ block_part (header_of header.now) payload.now wants) }
{
    let text = block_text(alloc, payload, header)?;
    Ok(Part {
        text,
        line: Vec::new(alloc),
        size: payload.len(),
        wants,
    })
}
