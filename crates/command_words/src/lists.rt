//! The numbers that a text spells: one, or a list with commas.
ghost use Rattle.std.specs.Prelude.{◌≡◌, ◌≤◌, length, if◌then◌else◌, Some, None};
ghost use Rattle.command_words.specs.Operands.{numbers_of, listed};
ghost use Rattle.command_words.specs.Rules.{most};
ghost use Rattle.command_words.specs.Taken.{with_text, none_taken, finished, gathered};

use crate::number::spelt;
use crate::numbers::Numbers;
use crate::rules::{Form, Rule};
use crate::splitting::split_first;

/// The numbers of a list so far, and whether all of them were accepted.
#[derive(Debug, Drop)]
struct Taken {
    numbers: Numbers,
    fine: bool,
}

impl Taken {
    fn new() -> Self
        ensures { result ≡ none_taken }
    {
        Taken {
            numbers: Numbers::new(),
            fine: true,
        }
    }

    /// Returns the numbers, or 7 if some weren't accepted.
    fn finish(self) -> Result<Numbers, u8>
        ensures { result ≡ finished self }
    {
        if self.fine { Ok(self.numbers) } else { Err(7) }
    }

    /// Takes the next number. Returns false if the text spells none.
    fn take(&mut self, rule: &Rule, text: &str) -> bool
        requires { length self.old.numbers ≤ most rule.now.form }
        ensures taken { with_text rule.now text.now self.old ≡ if result then Some self.new else None }
        ensures few { length self.new.numbers ≤ most rule.now.form }
    {
        let Some(number) = spelt(text) else {
            return false;
        };
        if self.fine && self.numbers.len() < rule.form.most() && rule.range.has(number) {
            self.numbers.push(number as u64);
        } else {
            self.fine = false;
        }
        true
    }
}

/// Returns the numbers of a list, or 6 where one isn't spelt, or 7 where one isn't accepted or there are too
/// many.
#[tactic(auto, using(crate::proofs::Listed::listed_here, crate::proofs::Listed::listed_last))]
fn list_of_numbers(rule: &Rule, text: &str) -> Result<Numbers, u8>
    ensures { result ≡ gathered rule.now none_taken (listed text.now) }
{
    let mut taken = Taken::new();
    let mut rest = text;
    while let Some((first, after)) = split_first(rest, ',') {
        if !taken.take(rule, first) {
            return Err(6);
        }
        rest = after;
    }
    if !taken.take(rule, rest) {
        return Err(6);
    }
    taken.finish()
}

/// Returns the numbers that a text spells, or 6 where it spells none, or 7 where one isn't accepted or there
/// are too many.
#[tactic(auto, using(crate::proofs::Gathered::all_numbers))]
pub fn numbers_of(rule: &Rule, text: &str) -> Result<Numbers, u8>
    ensures { result ≡ numbers_of rule.now text.now }
{
    if rule.form != Form::Number {
        return list_of_numbers(rule, text);
    }
    let mut taken = Taken::new();
    if !taken.take(rule, text) {
        return Err(6);
    }
    taken.finish()
}
