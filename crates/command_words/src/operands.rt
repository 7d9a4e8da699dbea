//! The operands of a command, such as `g=132`.
ghost use Rattle.std.specs.Prelude.{◌≡◌, [], IfSome, true};
ghost use Rattle.command_words.specs.Given.{IsGiven, HasDefault};
ghost use Rattle.command_words.specs.Operands.{rule_of, is_named, value_under, accepted, numbers_of};
ghost use Rattle.command_words.specs.Operands.{default_of, fault_of, first_fault, given, number_given};
ghost use Rattle.command_words.specs.Refusals.{missing};
ghost use Rattle.command_words.specs.Rules.{in_range};
ghost use Rattle.command_words.specs.Texts.{text_of_option, texts_of};
ghost use Rattle.std.specs.List.{list_any};

use crate::lists::numbers_of;
use crate::numbers::Numbers;
use crate::rules::Rule;
use crate::splitting::split_first;

/// The first argument that is refused, and why: 1 no command, 2 an unknown command, 3 an unknown name,
/// 4 a repeated name, 5 a missing name, 6 not spelt as a number, 7 out of range, 8 a soft buffer
/// that is too small. Places count arguments from the command, which is at 0.
#[derive(Clone, Copy, Debug, PartialEq, Eq, Hash)]
pub struct WordRefusal {
    pub number: u8,
    pub place: usize,
}

/// The value of an operand, and its position; 0 for a default, which has none.
#[derive(Debug, Drop)]
pub struct Operand {
    pub place: usize,
    pub numbers: Numbers,
}

fn rule_of(rules: &[Rule], name: &str) -> Option<Rule>
    ensures { result ≡ rule_of rules.now name.now }
{
    for rule in rules.iter() {
        if name == rule.name.text() {
            return Some(*rule);
        }
    }
    None
}

/// Returns the value after the name, if the argument has that name.
fn value_of<'a>(word: &'a str, name: &str) -> Option<&'a str>
    ensures { text_of_option result ≡ value_under name.now word.now }
{
    match split_first(word, '=') {
        Some((own, value)) => { if own == name { Some(value) } else { None } }
        None => None,
    }
}

/// Returns whether one of the arguments has that name.
fn is_given(name: &str, words: &[&str]) -> bool
    ensures { result ≡ list_any (is_named name.now) (texts_of words.now) }
{
    for word in words.iter() {
        if value_of(word, name).is_some() {
            return true;
        }
    }
    false
}

/// Returns why an argument is refused, after the arguments before it.
fn fault_of(rules: &[Rule], before: &[&str], word: &str) -> Option<u8>
    ensures { result ≡ fault_of rules.now (texts_of before.now) word.now }
{
    match split_first(word, '=') {
        Some((name, value)) => match rule_of(rules, name) {
            Some(rule) => {
                if is_given(name, before) {
                    return Some(4);
                }
                numbers_of(&rule, value).err()
            }
            None => Some(3),
        },
        None => Some(3),
    }
}

/// Returns the first of the operands that is refused by itself or by those before it.
pub fn first_fault(rules: &[Rule], operands: &[&str]) -> Option<WordRefusal>
    ensures { result ≡ first_fault rules.now [] (texts_of operands.now) }
{
    for (index, word) in operands.iter().enumerate() {
        if let Some(number) = fault_of(rules, &operands[..index], word) {
            return Some(WordRefusal {
                number,
                place: index + 1,
            });
        }
    }
    None
}

/// Returns the default of a rule, if it has one.
fn default_of(rule: &Rule) -> Option<Operand>
    requires { HasDefault rule.now }
    ensures value { result ≡ default_of rule.now.default }
    ensures given { IfSome result (λ operand. IsGiven rule.now operand.numbers) }
{
    let number = rule.default?;
    let mut numbers = Numbers::new();
    numbers.push(number);
    Some(Operand { place: 0, numbers })
}

/// Returns the numbers of a value at a place, where they are accepted.
#[tactic(auto, using(crate::proofs::Ranged::numbers_given))]
fn accepted(rule: &Rule, place: usize, value: &str) -> Option<Operand>
    ensures value { result ≡ accepted place (numbers_of rule.now value.now) }
    ensures given { IfSome result (λ operand. IsGiven rule.now operand.numbers) }
{
    match numbers_of(rule, value) {
        Ok(numbers) => Some(Operand { place, numbers }),
        Err(_) => None,
    }
}

/// Returns the operand of a rule, or its default.
pub fn given(rule: &Rule, operands: &[&str]) -> Option<Operand>
    requires { HasDefault rule.now }
    ensures value { result ≡ given rule.now (texts_of operands.now) }
    ensures given { IfSome result (λ operand. IsGiven rule.now operand.numbers) }
{
    for (index, word) in operands.iter().enumerate() {
        if let Some(value) = value_of(word, rule.name.text()) {
            return accepted(rule, index + 1, value);
        }
    }
    default_of(rule)
}

/// Returns the single number of a rule's operand, or its default.
#[tactic(auto, using(crate::proofs::Ranged::first_ranged))]
pub fn number_given(rule: &Rule, operands: &[&str]) -> Option<u64>
    requires { HasDefault rule.now }
    ensures value { result ≡ number_given rule.now (texts_of operands.now) }
    ensures ranged { IfSome result (λ n. in_range rule.now.range n ≡ true) }
{
    match given(rule, operands) {
        Some(operand) => Some(operand.numbers.at(0)),
        None => None,
    }
}

/// Returns the refusal of a name that is required and isn't given; the place is the number of arguments, the
/// command among them.
pub fn missing(operands: &[&str]) -> WordRefusal
    ensures { result ≡ missing (texts_of operands.now) }
{
    WordRefusal {
        number: 5,
        place: operands.len() + 1,
    }
}
