//! The transmissions that the arguments of `encode` and `trial` ask for.
ghost use Rattle.std.specs.Prelude.{◌≡◌, ◌<◌, ◌≤◌, ◌*◌, IfSome, None, Some, length, true, if◌then◌else◌};
ghost use Rattle.std.specs.List.{list_all};
ghost use Rattle.rate_match.specs.Matching.{is_g, limit_of};
ghost use Rattle.command_words.specs.Rules.{in_range};
ghost use Rattle.command_words.specs.Tables.{modulations, layers, to_a_million, limits};
ghost use Rattle.command_words.specs.Transmissions.{each, is_each, place_of, uneven_list, limit_asked};
ghost use Rattle.command_words.specs.Transmissions.{transmission_at, transmissions, is_multiple};
ghost use Rattle.command_words.specs.Transmissions.{version_in, AreGiven};

use crate::operands::Operand;
use coded_stream::Version;
use rate_match::sends::Sending;
use rate_match::{Buffer, Match, Sends};

/// The lists of one number for each transmission, or of one for all.
#[derive(Debug, Drop)]
pub struct Lists {
    pub g: Operand,
    pub qm: Operand,
    pub nl: Operand,
}

/// The arguments' values for the blocks and their transmissions.
#[derive(Debug, Drop)]
pub struct Asked {
    pub lists: Lists,
    pub rv: Operand,
    pub tb: Operand,
    pub nir: Operand,
}

impl Operand {
    fn is_each(&self, count: usize) -> bool
        ensures { result ≡ is_each count self.now }
    {
        self.numbers.len() == 1 || self.numbers.len() == count
    }

    /// Returns the number of transmission `i` of `count`.
    fn each(&self, i: usize, count: usize) -> u64
        requires some { 1 ≤ length self.now.numbers }
        requires each { is_each count self.now ≡ true }
        requires within { i < count }
        ensures value { result ≡ each self.now i }
    {
        if self.numbers.len() == 1 {
            self.numbers.at(0)
        } else {
            self.numbers.at(i)
        }
    }
}

impl Lists {
    /// Returns the first list that has neither one number nor `count`.
    pub fn uneven(&self, count: usize) -> Option<usize>
        ensures { result ≡ place_of (uneven_list count self.now) }
    {
        if !self.g.is_each(count) {
            Some(self.g.place)
        } else if !self.qm.is_each(count) {
            Some(self.qm.place)
        } else if !self.nl.is_each(count) {
            Some(self.nl.place)
        } else {
            None
        }
    }

    /// Returns the version of the container that holds these lists.
    pub fn version(&self) -> Version
        ensures { result ≡ version_in self.now }
    {
        if self.g.numbers.len() == 1 && self.qm.numbers.len() == 1 && self.nl.numbers.len() == 1 {
            Version::One
        } else {
            Version::Two
        }
    }
}

/// Returns the soft buffer of N_IR values, or the full one.
fn buffer(nir: u64) -> Buffer
    requires { nir ≤ 1000000 }
    ensures { limit_of result ≡ limit_asked nir }
{
    if nir == 0 {
        Buffer::Full
    } else {
        Buffer::Limited(nir as u32)
    }
}

/// Returns the rate matching of these numbers, where G is a multiple of N_L * Q_m.
#[tactic(auto, using(crate::proofs::Ranged::modulation_is_qm, crate::proofs::Ranged::layers_are_nl))]
fn matching(qm: u64, nl: u64, g: u64, nir: u64) -> Option<Match>
    requires qm { in_range modulations qm ≡ true }
    requires nl { in_range layers nl ≡ true }
    requires g { in_range to_a_million g ≡ true }
    requires nir { in_range limits nir ≡ true }
    ensures { result ≡ if is_g (nl * qm) g
        then Some (record { qm = qm; nl = nl; g = g; limit = limit_asked nir }) else None }
{
    Match::new(qm as u8, nl as u8, g as u32, buffer(nir)).ok()
}

/// Returns transmission `i`, where G is a multiple of N_L * Q_m.
fn transmission_given(asked: &Asked, i: usize) -> Option<Sending>
    requires given { AreGiven asked.now }
    requires even { uneven_list (length asked.now.rv.numbers) asked.now.lists ≡ None }
    requires within { i < length asked.now.rv.numbers }
    ensures value { result ≡ if is_multiple (transmission_at asked.now i)
        then Some (transmission_at asked.now i) else None }
    ensures version { IfSome result (λ s. s.rv ≤ 3) }
{
    let count = asked.rv.numbers.len();
    let qm = asked.lists.qm.each(i, count);
    let nl = asked.lists.nl.each(i, count);
    let g = asked.lists.g.each(i, count);
    let rv = asked.rv.numbers.at(i) as u8;
    match matching(qm, nl, g, asked.nir.numbers.at(0)) {
        Some(m) => Some(Sending { m, rv }),
        None => None,
    }
}

/// Returns the transmissions, where for each G is a multiple of N_L * Q_m.
pub fn transmissions_given(asked: &Asked) -> Option<Sends>
    requires given { AreGiven asked.now }
    requires even { uneven_list (length asked.now.rv.numbers) asked.now.lists ≡ None }
    ensures { result ≡ if list_all is_multiple (transmissions asked.now)
        then Some (transmissions asked.now) else None }
{
    let first = transmission_given(asked, 0)?;
    let mut sends = Sends::one(first.m, first.rv)?;
    for i in 1..asked.rv.numbers.len() {
        match transmission_given(asked, i) {
            Some(next) => {
                if !sends.add(next.m, next.rv) {
                    return None;
                }
            }
            None => return None,
        }
    }
    Some(sends)
}
