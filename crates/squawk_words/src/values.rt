//! The values of words: lists and numbers.
ghost use Rattle.std.specs.Prelude.{◌≡◌, [], IfOk, option_map, pos};
ghost use Rattle.std.specs.Char.{is_ascii_digit};
ghost use Rattle.std.specs.List.{list_all};
ghost use Rattle.squawk_words.specs.Choices.{groups, groups_by, is_numeral, names_by, number, read_or, rule_list};

use crate::parts::items_of;
use lint_base::{Names, NoMemory, Rule, UnknownName};
use std::alloc::Global;

// The most digits that a number may have.
const MOST_DIGITS: usize = 10;

// The most groups of statements that can be asked for.
const MOST_GROUPS: u32 = 100_000;

/// The rules whose names a list has, `Some` of none where there is no list, or `None` where an item
/// of the list names no rule. The error comes when memory runs out.
pub(crate) fn rules_or_none(
    alloc: Global,
    list: Option<&str>,
) -> Result<Option<Vec<Rule>>, NoMemory>
    ensures { IfOk result (λ rules. option_map (λ r. r.items) rules ≡ read_or [] rule_list (option_map (λ s. s.now) list.entry)) }
{
    match list {
        None => Ok(Some(Vec::new(alloc))),
        Some(list) => rule_list(alloc, list),
    }
}

/// The rules whose names a list has, or `None` where an item of the list names no rule. The error
/// comes when memory runs out.
pub(crate) fn rule_list(alloc: Global, list: &str) -> Result<Option<Vec<Rule>>, NoMemory>
    ensures { IfOk result (λ rules. option_map (λ r. r.items) rules ≡ rule_list list.now) }
{
    let items = items_of(alloc, list)?;
    let mut rules = Vec::new(alloc);
    for item in &items {
        match Rule::try_from(*item) {
            Ok(rule) => rules.push(rule)?,
            Err(UnknownName) => return Ok(None),
        }
    }
    Ok(Some(rules))
}

/// The names that count as not volatile: the standard ones and those of a list, if there is one, or
/// `None` where an item of the list is empty. The error comes when memory runs out.
pub(crate) fn names_by(alloc: Global, list: Option<&str>) -> Result<Option<Names>, NoMemory>
    ensures { IfOk result (λ names. names ≡ names_by (option_map (λ s. s.now) list.entry)) }
{
    let mut names = Names::standard(alloc)?;
    if let Some(list) = list {
        let items = items_of(alloc, list)?;
        for item in &items {
            if item.is_empty() {
                return Ok(None);
            }
            names.push(item)?;
        }
    }
    Ok(Some(names))
}

/// The number that a text is, or a default where there is no text; `None` where the text is not one
/// to ten digits, or the number is above 2147483647.
pub(crate) fn number_or(default: i32, text: Option<&str>) -> Option<i32>
    ensures { result ≡ read_or default number (option_map (λ s. s.now) text.entry) }
{
    match text {
        None => Some(default),
        Some(text) => number(text),
    }
}

// The number that a text of one to ten digits is, if it is at most 2147483647.
fn number(text: &str) -> Option<i32>
    ensures { result ≡ number text.now }
{
    if !is_numeral(text) {
        return None;
    }
    text.parse::<i32>().ok()
}

/// How many groups of statements a text asks for, `Some` of none where there is no text; `None`
/// where the text is not one to ten digits, or the number is above 100000, or locks are asked for
/// beside it.
pub(crate) fn groups_by(locks: bool, text: Option<&str>) -> Option<Option<u32>>
    ensures { result ≡ groups_by locks (option_map (λ s. s.now) text.entry) }
{
    match text {
        None => Some(None),
        Some(_) if locks => None,
        Some(text) => Some(Some(groups(text)?)),
    }
}

// The number that a text of one to ten digits is, if it is at most 100000.
fn groups(text: &str) -> Option<u32>
    ensures { result ≡ groups text.now }
{
    if !is_numeral(text) {
        return None;
    }
    let Ok(number) = text.parse::<u32>() else {
        return None;
    };
    if number <= MOST_GROUPS {
        Some(number)
    } else {
        None
    }
}

// Whether a text is one to ten digits.
fn is_numeral(text: &str) -> bool
    ensures { result ≡ is_numeral text.now }
{
    !text.is_empty() && text.len() <= MOST_DIGITS && has_digits_alone(text)
}

// Whether each byte of a text is a digit.
fn has_digits_alone(text: &str) -> bool
    ensures { result ≡ list_all is_ascii_digit text.now }
{
    text.bytes().all(|b| b.is_ascii_digit())
}
