//! The error codes of the library.
ghost use Rattle.std.specs.Prelude.{◌≡◌, [], ◌∷◌, IsTrue, OnOk};
ghost use Rattle.std.specs.Result.{result_err};
ghost use Rattle.gomzelat_c.specs.Refusals.{number_of, refusal_of, told};
ghost use Rattle.gomzelat_c.specs.Tests.{first_failed, test};

use lte_bits::NoMemory;
use rate_match::BadMatch;
use segmentation::BadLength;

/// Why a call fails: memory ran out, which is only reported if nothing is refused; or an argument is refused,
/// in the order in which they are tested.
#[derive(Clone, Copy, Debug, PartialEq, Eq, Hash)]
pub enum Refusal {
    /// Memory ran out.
    NoMemory,
    /// A payload has no bytes, or more than 18,722.
    BadLength,
    /// There are no transmissions, or more than eight.
    BadCount,
    /// Q_m isn't 2, 4 or 6.
    BadQm,
    /// N_L isn't 1 or 2.
    BadNl,
    /// G is 0, above 1,000,000 or no multiple of N_L * Q_m.
    BadG,
    /// A redundancy version is above 3.
    BadVersion,
    /// N_IR is too small for the payload.
    BadBuffer,
    /// There is no code block of that number.
    BadBlock,
    /// The greatest number of windows is 0, or above 64.
    BadWindows,
    /// The greatest number of iterations is 0, or above 16.
    BadLimit,
    /// K isn't one of the 188 sizes of a code block.
    BadSize,
    /// There are as many fillers as bits, or more.
    BadFillers,
    /// The check of a code block is neither CRC24A nor CRC24B.
    BadCheck,
    /// The number of soft values is wrong.
    BadValues,
    /// There are fewer bytes than the bits need.
    BadBits,
    /// The amplitude is 0, or above 127.
    BadAmp,
    /// The noise is above 127.
    BadNoise,
    /// A transmission's number is above 7.
    BadNumber,
    /// An identity is above 65,535, a codeword's number above 1, a slot above 19, or a cell above 503.
    BadScrambling,
    /// The bits are no multiple of Q_m, or a coordinate isn't from -4000 to 4000.
    BadPoints,
    /// The buffer for what is written is too short.
    ShortOutput,
    /// There are fewer soft cells than the code blocks have.
    ShortCells,
    /// There are fewer entries than code blocks.
    ShortBlocks,
    /// There are fewer bytes than the code blocks have bits.
    ShortBits,
}

impl Refusal {
    /// Returns its number, from 1 on.
    pub fn number(self) -> u32
        ensures { result ≡ number_of self }
    {
        match self {
            Refusal::NoMemory => 1,
            Refusal::BadLength => 2,
            Refusal::BadCount => 3,
            Refusal::BadQm => 4,
            Refusal::BadNl => 5,
            Refusal::BadG => 6,
            Refusal::BadVersion => 7,
            Refusal::BadBuffer => 8,
            Refusal::BadBlock => 9,
            Refusal::BadWindows => 10,
            Refusal::BadLimit => 11,
            Refusal::BadSize => 12,
            Refusal::BadFillers => 13,
            Refusal::BadCheck => 14,
            Refusal::BadValues => 15,
            Refusal::BadBits => 16,
            Refusal::BadAmp => 17,
            Refusal::BadNoise => 18,
            Refusal::BadNumber => 19,
            Refusal::BadScrambling => 20,
            Refusal::BadPoints => 21,
            Refusal::ShortOutput => 22,
            Refusal::ShortCells => 23,
            Refusal::ShortBlocks => 24,
            Refusal::ShortBits => 25,
        }
    }
}

/// Returns the number of the refusal, or 0.
pub fn told(done: Result<(), Refusal>) -> u32
    ensures { result ≡ told (result_err done) }
{
    match done {
        Ok(()) => 0,
        Err(refusal) => refusal.number(),
    }
}

impl From<NoMemory> for Refusal {
    ghost use Rattle.gomzelat_c.specs.declared.refusal.Refusal.TheVariants as refusal;

    ghost from_gives = { λ _ r. r ≡ refusal.NoMemory };

    fn from(_error: NoMemory) -> Refusal {
        Refusal::NoMemory
    }
}

impl From<BadLength> for Refusal {
    ghost use Rattle.gomzelat_c.specs.declared.refusal.Refusal.TheVariants as refusal;

    ghost from_gives = { λ _ r. r ≡ refusal.BadLength };

    fn from(_error: BadLength) -> Refusal {
        Refusal::BadLength
    }
}

impl From<BadMatch> for Refusal {
    ghost from_gives = { λ bad r. r ≡ refusal_of bad };

    fn from(bad: BadMatch) -> Refusal {
        match bad {
            BadMatch::BadQm => Refusal::BadQm,
            BadMatch::BadNl => Refusal::BadNl,
            BadMatch::BadG => Refusal::BadG,
        }
    }
}

/// Returns `otherwise` as an error unless a test holds.
pub fn accept(holds: bool, otherwise: Refusal) -> Result<(), Refusal>
    ensures refused { result_err result ≡ first_failed (test holds otherwise ∷ []) }
    ensures holds { OnOk result (IsTrue holds) }
{
    if holds { Ok(()) } else { Err(otherwise) }
}
