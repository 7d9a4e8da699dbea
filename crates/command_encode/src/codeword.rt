//! The command `codeword`.
ghost use Rattle.std.specs.Prelude.{◌≡◌, ◌≤◌, IfOk, None, length};
ghost use Rattle.segmentation.specs.declared.planning.TheConstants.{MOST_BYTES};
ghost use Rattle.command_encode.specs.Codeword.{bits_line, codeword_text};
ghost use Rattle.command_encode.specs.CodewordRound.{IsCoded};

use crate::input::{Input, read_up_to};
use coded_stream::cause;
use edge_io::{Sink, Source};
use lte_bits::{List, NoMemory, pack};
use rate_match::Match;
use run_loop::{Open, Part, Round, Status, Stop, Work, end_line, push_number};
use segmentation::MOST_BYTES;
use std::alloc::Global;

/// The codeword of one transport block, over a full buffer: all in one round.
#[derive(Debug, Drop)]
pub struct Codeword {
    pub m: Match,
    pub rv: u8,
    pub ghost full: { m.limit ≡ None },
    pub ghost version: { rv ≤ 3 },
}

/// Returns the codeword as bytes.
#[tactic(auto, using(crate::proofs::FullBuffer::fits_full))]
fn codeword_text(alloc: Global, payload: &[u8], m: &Match, rv: u8) -> Result<List<u8>, NoMemory>
    requires some { 1 ≤ length payload.now }
    requires few { length payload.now ≤ MOST_BYTES }
    requires full { m.now.limit ≡ None }
    requires version { rv ≤ 3 }
    ensures { IfOk result (λ text. text ≡ codeword_text m.now rv payload.now) }
{
    let bits = rate_match::codeword(alloc, payload, m, rv)?;
    pack(alloc, bits.as_slice())
}

/// Returns the line `end bits G`.
fn bits_line(alloc: Global, m: &Match) -> Result<Vec<u8>, NoMemory>
    ensures { IfOk result (λ line. line.items ≡ bits_line m.now) }
{
    let mut line = Vec::new(alloc);
    push_number(&mut line, b"end bits ", m.g() as u128)?;
    end_line(&mut line)?;
    Ok(line)
}

/// Returns the block of a payload, and the end: all memory is allocated before anything is written.
fn coded(alloc: Global, payload: &[u8], m: &Match, rv: u8) -> Result<Round, NoMemory>
    requires some { 1 ≤ length payload.now }
    requires few { length payload.now ≤ MOST_BYTES }
    requires full { m.now.limit ≡ None }
    requires version { rv ≤ 3 }
    ensures { IfOk result (λ round. IsCoded m.now rv payload.now round.parts.items round.stop) }
{
    let text = codeword_text(alloc, payload, m, rv)?;
    let last = bits_line(alloc, m)?;
    let mut parts = Vec::new(alloc);
    parts.push(Part {
        text: text.into_vec(),
        line: Vec::new(alloc),
        size: payload.len(),
        wants: payload.len() + 1,
    })?;
    Ok(Round {
        parts,
        stop: Stop::End {
            closing: Vec::new(alloc),
            last,
            failed: false,
        },
    })
}

/// Returns the refusal of a transport block's length at a byte.
fn bad_length(place: u64) -> Status
    ensures { result ≡ Status.BadStream 4 place }
{
    Status::BadStream {
        number: cause::BAD_BLOCK_LENGTH,
        place,
    }
}

impl Open for Codeword {
    ghost use Rattle.command_encode.specs.Codeword.{codeword_answer};

    type Rounds = Codeword;

    ghost answer = { λ s input. codeword_answer s.m s.rv input };

    fn open<S: Source, D: Sink>(
        self,
        _alloc: Global,
        _source: &mut S,
        _out: &mut D,
    ) -> Result<Codeword, Status> {
        Ok(self)
    }
}

impl Work for Codeword {
    ghost use Rattle.command_encode.specs.Codeword.{block_answer};

    ghost answer = { λ s input. block_answer s.m s.rv input };

    ghost budget = { λ _. 0 };

    fn round<S: Source>(&mut self, alloc: Global, source: &mut S) -> Result<Round, Status> {
        let payload = match read_up_to(alloc, source, MOST_BYTES + 1)? {
            Input::Ended(payload) => payload,
            Input::Whole(_) => return Err(bad_length(MOST_BYTES as u64)),
        };
        if payload.is_empty() {
            return Err(bad_length(0));
        }
        Ok(coded(alloc, payload.as_slice(), &self.m, self.rv)?)
    }
}
