//! What is wrong with words.
ghost use Rattle.std.specs.Prelude.{◌≡◌, ◌++◌, IfOk, string_bytes};
ghost use Rattle.refused_word.specs.Messages.{message_of, of_choice, of_flag, suggestion, suggestion_by, unknown_word, values_of};

use check_words::{Choice, Flag, WordFault};
use nearest_code::{Code, near_code};
use report_lines::NoMemory;
use std::alloc::{AllocError, Global};

// What there is in place of a word that there isn't.
const HELP_HINT: &str = "; --help lists what there is";

// Three texts, one after the other.
fn joined(alloc: Global, front: &str, middle: &str, rest: &str) -> Result<String, AllocError>
    ensures { IfOk result (λ text. string_bytes text ≡ front.now ++ middle.now ++ rest.now) }
{
    let mut text = String::from_str(alloc, front)?;
    text.push_str(middle)?;
    text.push_str(rest)?;
    Ok(text)
}

// What is wrong with a word that there isn't.
fn unknown_word(alloc: Global, what: &str, word: &str) -> Result<String, AllocError>
    ensures { IfOk result (λ text. string_bytes text ≡ unknown_word what.now word.now) }
{
    joined(alloc, what, word, HELP_HINT)
}

// What is wrong with an option of this name.
fn of_name(alloc: Global, name: &str, what: &str) -> Result<String, AllocError>
    ensures { IfOk result (λ text. string_bytes text ≡ of_flag name.now what.now) }
{
    let mut text = String::from_str(alloc, "--")?;
    text.push_str(name)?;
    text.push_str(": ")?;
    text.push_str(what)?;
    Ok(text)
}

// What is wrong with a value of an option, and what follows.
fn of_value(
    alloc: Global,
    choice: Choice,
    what: &str,
    value: &str,
    rest: &str,
) -> Result<String, AllocError>
    ensures { IfOk result (λ text. string_bytes text ≡ of_choice choice (what.now ++ value.now ++ rest.now)) }
{
    let all = joined(alloc, what, value, rest)?;
    of_name(alloc, choice.name(), all.as_str())
}

// The values that an option has.
fn values_of(choice: Choice) -> &'static str
    ensures { result.now ≡ values_of choice }
{
    match choice {
        Choice::Format => "; one of text, concise, gcc, github, json, sarif, gitlab",
        Choice::Color => "; one of auto, always, never",
        Choice::FailOn => "; one of warning, never",
        _ => "",
    }
}

// The name that may be meant, but for the one that no option can have.
fn suggestion(alloc: Global, name: &str) -> Result<String, AllocError>
    ensures { IfOk result (λ text. string_bytes text ≡ suggestion name.now) }
{
    if name == "unused-ignore" {
        return String::from_str(alloc, "");
    }
    joined(alloc, "; did you mean ", name, "?")
}

// The same, where there is one.
fn suggestion_by(alloc: Global, code: Option<Code>) -> Result<String, AllocError>
    ensures { IfOk result (λ text. string_bytes text ≡ suggestion_by code) }
{
    match code {
        Some(code) => suggestion(alloc, code.name()),
        None => String::from_str(alloc, ""),
    }
}

// What is wrong with the name of a rule or a hazard that there isn't.
fn unknown_rule(alloc: Global, choice: Choice, name: &str) -> Result<String, NoMemory>
    ensures { IfOk result (λ text. string_bytes text ≡ message_of (WordFault.UnknownRule choice name.now)) }
{
    let code = near_code(alloc, name, 3)?;
    let rest = suggestion_by(alloc, code)?;
    let text = of_value(alloc, choice, "unknown rule: ", name, rest.as_str())?;
    Ok(text)
}

// The texts of options that take a value, but for the rules.
fn choice_text(alloc: Global, choice: Choice, what: &str) -> Result<String, NoMemory>
    ensures { IfOk result (λ text. string_bytes text ≡ of_choice choice what.now) }
{
    let text = of_name(alloc, choice.name(), what)?;
    Ok(text)
}

// The text of an option that takes no value.
#[tactic(auto, unfolding(crate::specs::Messages::message_of))]
fn flag_text(alloc: Global, flag: Flag) -> Result<String, NoMemory>
    ensures { IfOk result (λ text. string_bytes text ≡ message_of (WordFault.TakesNoValue flag)) }
{
    let text = of_name(alloc, flag.name(), "it takes no value")?;
    Ok(text)
}

// The text of a value.
fn value_text(
    alloc: Global,
    choice: Choice,
    what: &str,
    value: &str,
    rest: &str,
) -> Result<String, NoMemory>
    ensures { IfOk result (λ text. string_bytes text ≡ of_choice choice (what.now ++ value.now ++ rest.now)) }
{
    let text = of_value(alloc, choice, what, value, rest)?;
    Ok(text)
}

// The text of a value that is no number.
#[tactic(auto, unfolding(crate::specs::Messages::message_of))]
fn number_text(alloc: Global, choice: Choice, value: &str) -> Result<String, NoMemory>
    ensures { IfOk result (λ text. string_bytes text ≡ message_of (WordFault.NotNumber choice value.now)) }
{
    let mut what = String::from_str(alloc, "not a number from 0 to 2147483647: ")?;
    what.push_str(value)?;
    choice_text(alloc, choice, what.as_str())
}

// The text of a word.
fn word_text(alloc: Global, what: &str, word: &str) -> Result<String, NoMemory>
    ensures { IfOk result (λ text. string_bytes text ≡ unknown_word what.now word.now) }
{
    let text = unknown_word(alloc, what, word)?;
    Ok(text)
}

/// What is wrong with words, on one line. The error comes when memory runs out.
#[tactic(auto, unfolding(crate::specs::Messages::message_of))]
pub(crate) fn message(alloc: Global, fault: &WordFault) -> Result<String, NoMemory>
    ensures { IfOk result (λ text. string_bytes text ≡ message_of fault.now) }
{
    match fault {
        WordFault::NoCommand => word_text(alloc, "no command", ""),
        WordFault::UnknownCommand(word) => word_text(alloc, "unknown command: ", word.as_str()),
        WordFault::UnknownWord(word) => word_text(alloc, "unknown word: ", word.as_str()),
        WordFault::MissingValue(choice) => choice_text(alloc, *choice, "its value is missing"),
        WordFault::TakesNoValue(flag) => flag_text(alloc, *flag),
        WordFault::UnknownValue(choice, value) => {
            let rest = values_of(*choice);
            value_text(alloc, *choice, "unknown value: ", value.as_str(), rest)
        }
        WordFault::UnknownRule(choice, name) => unknown_rule(alloc, *choice, name.as_str()),
        WordFault::EmptyName(choice) => choice_text(alloc, *choice, "an empty name"),
        WordFault::NotNumber(choice, value) => number_text(alloc, *choice, value.as_str()),
        WordFault::Twice(choice) => choice_text(alloc, *choice, "it is given twice"),
        WordFault::OnlyBesideLists => {
            choice_text(alloc, Choice::Only, "not beside --include or --exclude")
        }
    }
}
