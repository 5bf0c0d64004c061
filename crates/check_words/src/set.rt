//! What options set.
ghost use Rattle.std.specs.Prelude.{◌≡◌, ◌∷◌, [], IfOk, Ok, OnOk, is_some, string_bytes};
ghost use Rattle.code_choice.specs.Choices.{code_choices_of};
ghost use Rattle.check_words.specs.Steps as spec;

use crate::fault::WordFault;
use crate::lists::first_unknown;
use crate::names::{Choice, Flag, color_named, fail_on_named, format_named};
use crate::request::Request;
use code_choice::{NoMemory, Text, Words, has_foreign_word, read_code_choices};
use std::alloc::{AllocError, Global};

/// A copy of a text. The error comes when memory runs out.
pub(crate) fn copied(alloc: Global, text: &str) -> Result<Text, AllocError>
    ensures { IfOk result (λ copy. copy ≡ text.now) }
{
    Ok(Text::made(String::from_str(alloc, text)?))
}

// The fault of a value that an option does not have.
fn unknown_value(alloc: Global, choice: Choice, value: &str) -> Result<WordFault, NoMemory>
    ensures { IfOk result (λ fault. fault ≡ WordFault.UnknownValue choice value.now) }
{
    Ok(WordFault::UnknownValue(choice, copied(alloc, value)?))
}

// Sets the format, where there is one of this name.
fn set_format(
    alloc: Global,
    request: &mut Request,
    value: &str,
) -> Result<Option<WordFault>, NoMemory>
    ensures { IfOk result (λ fault. spec.after fault request.new ≡ spec.with_format value.now request.old) }
{
    match format_named(value) {
        Some(format) => {
            request.format = format;
            Ok(None)
        }
        None => Ok(Some(unknown_value(alloc, Choice::Format, value)?)),
    }
}

// Sets the use of colours, where there is one of this name.
fn set_color(
    alloc: Global,
    request: &mut Request,
    value: &str,
) -> Result<Option<WordFault>, NoMemory>
    ensures { IfOk result (λ fault. spec.after fault request.new ≡ spec.with_color value.now request.old) }
{
    match color_named(value) {
        Some(color) => {
            request.color = color;
            Ok(None)
        }
        None => Ok(Some(unknown_value(alloc, Choice::Color, value)?)),
    }
}

// Sets the reports that make the run fail, where these have this name.
fn set_fail_on(
    alloc: Global,
    request: &mut Request,
    value: &str,
) -> Result<Option<WordFault>, NoMemory>
    ensures { IfOk result (λ fault. spec.after fault request.new ≡ spec.with_fail_on value.now request.old) }
{
    match fail_on_named(value) {
        Some(fail_on) => {
            request.fail_on = fail_on;
            Ok(None)
        }
        None => Ok(Some(unknown_value(alloc, Choice::FailOn, value)?)),
    }
}

// Sets the name of standard input.
fn set_stdin_name(
    alloc: Global,
    request: &mut Request,
    value: &str,
) -> Result<Option<WordFault>, NoMemory>
    ensures { IfOk result (λ fault. spec.after fault request.new ≡ Ok (spec.with_stdin_name value.now request.old)) }
{
    request.stdin_name = copied(alloc, value)?;
    Ok(None)
}

// Sets the configuration file.
fn set_config(
    alloc: Global,
    request: &mut Request,
    value: &str,
) -> Result<Option<WordFault>, NoMemory>
    ensures { IfOk result (λ fault. spec.after fault request.new ≡ Ok (spec.with_config value.now request.old)) }
{
    request.config = Some(copied(alloc, value)?);
    Ok(None)
}

// Sets the baseline.
fn set_baseline(
    alloc: Global,
    request: &mut Request,
    value: &str,
) -> Result<Option<WordFault>, NoMemory>
    ensures { IfOk result (λ fault. spec.after fault request.new ≡ Ok (spec.with_baseline value.now request.old)) }
{
    request.baseline = Some(copied(alloc, value)?);
    Ok(None)
}

// The word of the linter that sets an option.
fn linter_word(alloc: Global, choice: Choice, value: &str) -> Result<String, NoMemory>
    ensures { IfOk result (λ word. string_bytes word ≡ spec.linter_word choice value.now) }
{
    let mut word = String::from_str(alloc, "--")?;
    word.push_str(choice.name())?;
    word.push_str("=")?;
    word.push_str(value)?;
    Ok(word)
}

// Whether the linter takes a word alone.
fn is_taken(alloc: Global, word: &str) -> Result<bool, NoMemory>
    ensures { IfOk result (λ taken. taken ≡ is_some (code_choices_of (word.now ∷ []))) }
{
    let mut words = Words::new(alloc);
    words.push(word)?;
    let choices = read_code_choices(alloc, &words)?;
    Ok(choices.is_some())
}

// What is wrong with a value that the linter does not take.
fn value_fault(alloc: Global, choice: Choice, value: &str) -> Result<WordFault, NoMemory>
    ensures { IfOk result (λ fault. fault ≡ spec.value_fault choice value.now) }
{
    match choice {
        Choice::Only | Choice::Include | Choice::Exclude => {
            Ok(WordFault::UnknownRule(choice, first_unknown(alloc, value)?))
        }
        Choice::NonVolatile => Ok(WordFault::EmptyName(choice)),
        _ => Ok(WordFault::NotNumber(choice, copied(alloc, value)?)),
    }
}

// Adds a word for the linter.
fn push_linter(request: &mut Request, word: &str) -> Result<(), NoMemory>
    ensures { OnOk result (request.new ≡ spec.with_linter_word word.now request.old) }
{
    request.linter.push(word)
}

// Sets an option for the linter, which is set once, and to a value that the linter takes.
#[tactic(auto, unfolding(crate::specs::Steps::with_linter_option))]
fn set_linter_option(
    alloc: Global,
    choice: Choice,
    value: &str,
    request: &mut Request,
) -> Result<Option<WordFault>, NoMemory>
    ensures { IfOk result (λ fault. spec.after fault request.new ≡ spec.with_linter_option choice value.now request.old) }
{
    if has_foreign_word(&request.linter, &[choice.name()]) {
        return Ok(Some(WordFault::Twice(choice)));
    }
    let word = linter_word(alloc, choice, value)?;
    if is_taken(alloc, word.as_str())? {
        push_linter(request, word.as_str())?;
        return Ok(None);
    }
    Ok(Some(value_fault(alloc, choice, value)?))
}

// Adds a word for the linter that takes no value, where it is not there.
fn set_linter_flag(request: &mut Request, name: &str, word: &str) -> Result<(), NoMemory>
    ensures { OnOk result (request.new ≡ spec.with_linter_flag name.now word.now request.old) }
{
    if has_foreign_word(&request.linter, &[name]) {
        return Ok(());
    }
    push_linter(request, word)
}

/// Sets an option that takes no value. The error comes when memory runs out.
pub(crate) fn set_flag(request: &mut Request, flag: Flag) -> Result<(), NoMemory>
    ensures { OnOk result (request.new ≡ spec.with_flag flag request.old) }
{
    match flag {
        Flag::Quiet => request.quiet = true,
        Flag::Statistics => request.statistics = true,
        Flag::WriteBaseline => request.write_baseline = true,
        Flag::Strict => request.strict = true,
        Flag::AssumeInTransaction => {
            set_linter_flag(request, "assume-in-transaction", "--assume-in-transaction")?;
        }
        Flag::NoHazards => set_linter_flag(request, "no-hazards", "--no-hazards")?,
    }
    Ok(())
}

/// Sets an option to a value, or says what is wrong with the value; then the request is of no more use. The error comes when memory runs
/// out.
#[tactic(auto, unfolding(crate::specs::Steps::set))]
pub(crate) fn set(
    alloc: Global,
    choice: Choice,
    value: &str,
    request: &mut Request,
) -> Result<Option<WordFault>, NoMemory>
    ensures { IfOk result (λ fault. spec.after fault request.new ≡ spec.set choice value.now request.old) }
{
    match choice {
        Choice::Format => set_format(alloc, request, value),
        Choice::Color => set_color(alloc, request, value),
        Choice::FailOn => set_fail_on(alloc, request, value),
        Choice::StdinName => set_stdin_name(alloc, request, value),
        Choice::Config => set_config(alloc, request, value),
        Choice::Baseline => set_baseline(alloc, request, value),
        _ => set_linter_option(alloc, choice, value, request),
    }
}
