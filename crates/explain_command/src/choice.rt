//! The text that words ask for.
ghost use Rattle.std.specs.Prelude.{◌≡◌, IfErr, IfOk, None, Some, drop, option_map, string_bytes};
ghost use Rattle.explain_command.specs.Failures.{IsRefusal};
ghost use Rattle.explain_command.specs.Lines.{IsUnknownLine};
ghost use Rattle.explain_command.specs.Words.{AreRefused, IsRefusedFor, explained, first_option, folded, folded_char, page_named, text_of, text_of_names};

use crate::failure::Failure;
use crate::help::HELP;
use crate::refusal::{no_name, several, unknown};
use refused_word::{Code, Rule, Stop, Words, asks_for_help, begins_with_dash, code_named};
use rule_pages::{RULE_LIST, code_page};
use std::alloc::{AllocError, Global};

// A character as the names have it.
fn folded_char(c: char) -> char
    ensures { result ≡ folded_char c }
{
    if c == '_' {
        '-'
    } else {
        c.to_ascii_lowercase()
    }
}

// A text as the names have it.
fn folded(alloc: Global, name: &str) -> Result<String, AllocError>
    ensures { IfOk result (λ text. string_bytes text ≡ folded name.now) }
{
    name.chars().map(|c| folded_char(c)).collect(alloc)
}

// The rule or the hazard of a text, also where ignore comments can't name it.
fn explained(text: &str) -> Option<Code>
    ensures { result ≡ explained text.now }
{
    if text == "unused-ignore" {
        return Some(Code::Rule(Rule::UnusedIgnore));
    }
    code_named(text)
}

// The page of a name.
#[tactic(auto, using(crate::proofs::Refusals::page_refused), unfolding(crate::specs::Words::page_named))]
fn page_named(alloc: Global, name: &str) -> Result<&'static str, Failure>
    ensures page { IfOk result (λ page. page_named name.now ≡ Some page.now) }
    ensures refused { IfErr result (IsRefusal (λ line. (page_named name.now ≡ None) × IsUnknownLine name.now (folded name.now) line)) }
{
    let Ok(text) = folded(alloc, name) else {
        return Err(Failure::Stop(Stop::NoMemory));
    };
    match explained(text.as_str()) {
        Some(code) => Ok(code_page(code)),
        None => Err(unknown(alloc, name, text.as_str())),
    }
}

// The text that names ask for, or why there is none: the words after the first.
#[tactic(auto, using(crate::proofs::Refusals::one_refused, crate::proofs::Refusals::several_refused, crate::proofs::Words::list_of, crate::proofs::Words::page_of_name))]
fn text_of_names(alloc: Global, words: &Words) -> Result<&'static str, Failure>
    ensures text { IfOk result (λ text. text_of_names (drop 1 words.now) ≡ Some text.now) }
    ensures refused { IfErr result (IsRefusal (AreRefused (drop 1 words.now))) }
{
    if words.len() < 2 {
        return Ok(RULE_LIST);
    }
    if words.len() > 2 {
        return Err(several(alloc));
    }
    page_named(alloc, words.get(1))
}

// The first word after the first that is an option.
fn first_option(words: &Words) -> Option<&str>
    ensures { option_map (λ s. s.now) result ≡ first_option (drop 1 words.entry.now) }
{
    for i in 1..words.len() {
        let word = words.get(i);
        if begins_with_dash(word) {
            return Some(word);
        }
    }
    None
}

/// The text that words ask for, or why there is none.
#[tactic(auto, using(crate::proofs::Refusals::names_alone, crate::proofs::Refusals::option_refused, crate::proofs::Refusals::text_alone))]
pub(crate) fn text_of(alloc: Global, words: &Words) -> Result<&'static str, Failure>
    ensures text { IfOk result (λ text. text_of words.now ≡ Some text.now) }
    ensures refused { IfErr result (IsRefusal (IsRefusedFor words.now)) }
{
    if asks_for_help(words) {
        return Ok(HELP);
    }
    match first_option(words) {
        Some(word) => Err(no_name(alloc, word)),
        None => text_of_names(alloc, words),
    }
}
