//! One word after another.
ghost use Rattle.std.specs.Prelude.{◌≡◌, IfOk, Ok, OnOk, option_map};
ghost use Rattle.check_words.specs.Steps as spec;

use crate::fault::WordFault;
use crate::names::{Choice, Flag, choice_named, flag_named};
use crate::request::Request;
use crate::set::{copied, set, set_flag};
use code_choice::{NoMemory, after_dashes, begins_with_dash, is_option, name_in, value_in};
use std::alloc::Global;

/// What the next word is to be.
#[derive(Clone, Copy, Debug, PartialEq, Eq)]
pub(crate) enum Next {
    /// An option, or a file.
    Any,
    /// The value of an option.
    Value(Choice),
    /// A file, after `--`.
    File,
}

/// What the words so far ask for, and what the next one is to be.
#[derive(Drop)]
pub(crate) struct Reader {
    pub(crate) next: Next,
    pub(crate) request: Request,
}

// Adds a file, and says what the next word is to be.
fn push_file(next: Next, reader: &mut Reader, word: &str) -> Result<(), NoMemory>
    ensures { OnOk result (reader.new ≡ spec.with_file next word.now reader.old.request) }
{
    reader.next = next;
    reader.request.files.push(word)
}

// The fault of a word that is no option.
fn unknown_word(alloc: Global, word: &str) -> Result<WordFault, NoMemory>
    ensures { IfOk result (λ fault. fault ≡ WordFault.UnknownWord word.now) }
{
    Ok(WordFault::UnknownWord(copied(alloc, word)?))
}

// Sets an option to a value, after which any word may follow.
fn set_value(
    alloc: Global,
    choice: Choice,
    value: &str,
    reader: &mut Reader,
) -> Result<Option<WordFault>, NoMemory>
    ensures { IfOk result (λ fault. spec.after fault reader.new ≡ spec.then_any (spec.set choice value.now reader.old.request)) }
{
    match set(alloc, choice, value, &mut reader.request)? {
        Some(fault) => Ok(Some(fault)),
        None => {
            reader.next = Next::Any;
            Ok(None)
        }
    }
}

// An option that takes a value, and what follows its `=`, if there is one.
fn choice_word(
    alloc: Global,
    choice: Choice,
    value: Option<&str>,
    reader: &mut Reader,
) -> Result<Option<WordFault>, NoMemory>
    ensures { IfOk result (λ fault. spec.after fault reader.new ≡ spec.choice_word choice (option_map (λ s. s.now) value.entry) reader.old.request) }
{
    match value {
        Some(value) => set_value(alloc, choice, value, reader),
        None => {
            reader.next = Next::Value(choice);
            Ok(None)
        }
    }
}

// An option that takes a value, by what follows its dashes.
#[tactic(auto, unfolding(crate::specs::Steps::valued_word))]
fn valued_word(
    alloc: Global,
    word: &str,
    rest: &str,
    reader: &mut Reader,
) -> Result<Option<WordFault>, NoMemory>
    ensures { IfOk result (λ fault. spec.after fault reader.new ≡ spec.valued_word word.now rest.now reader.old.request) }
{
    match choice_named(name_in(rest)) {
        Some(choice) => choice_word(alloc, choice, value_in(rest), reader),
        None => Ok(Some(unknown_word(alloc, word)?)),
    }
}

// An option that takes no value, and what follows its `=`, if there is one.
fn flag_word(
    flag: Flag,
    value: Option<&str>,
    reader: &mut Reader,
) -> Result<Option<WordFault>, NoMemory>
    ensures { IfOk result (λ fault. spec.after fault reader.new ≡ spec.flag_word flag (option_map (λ s. s.now) value.entry) reader.old.request) }
{
    if value.is_some() {
        return Ok(Some(WordFault::TakesNoValue(flag)));
    }
    set_flag(&mut reader.request, flag)?;
    reader.next = Next::Any;
    Ok(None)
}

// An option, by what follows its dashes.
#[tactic(auto, unfolding(crate::specs::Steps::option_word))]
fn option_word(
    alloc: Global,
    word: &str,
    rest: &str,
    reader: &mut Reader,
) -> Result<Option<WordFault>, NoMemory>
    ensures { IfOk result (λ fault. spec.after fault reader.new ≡ spec.option_word word.now rest.now reader.old.request) }
{
    match flag_named(name_in(rest)) {
        Some(flag) => flag_word(flag, value_in(rest), reader),
        None => valued_word(alloc, word, rest, reader),
    }
}

// A word that begins with `--`.
fn dashed_word(
    alloc: Global,
    word: &str,
    rest: &str,
    reader: &mut Reader,
) -> Result<Option<WordFault>, NoMemory>
    ensures { IfOk result (λ fault. spec.after fault reader.new ≡ spec.dashed_word word.now rest.now reader.old.request) }
{
    if rest.is_empty() {
        reader.next = Next::File;
        return Ok(None);
    }
    option_word(alloc, word, rest, reader)
}

// A word that does not.
fn plain_word(alloc: Global, word: &str, reader: &mut Reader) -> Result<Option<WordFault>, NoMemory>
    ensures { IfOk result (λ fault. spec.after fault reader.new ≡ spec.plain_word word.now reader.old.request) }
{
    if is_option(word) {
        return Ok(Some(unknown_word(alloc, word)?));
    }
    push_file(Next::Any, reader, word)?;
    Ok(None)
}

// A word that may be anything.
#[tactic(auto, unfolding(crate::specs::Steps::any_word))]
fn any_word(alloc: Global, word: &str, reader: &mut Reader) -> Result<Option<WordFault>, NoMemory>
    ensures { IfOk result (λ fault. spec.after fault reader.new ≡ spec.any_word word.now reader.old.request) }
{
    match after_dashes(word) {
        Some(rest) => dashed_word(alloc, word, rest, reader),
        None => plain_word(alloc, word, reader),
    }
}

// The value of an option, as a word of its own.
#[tactic(auto, unfolding(crate::specs::Steps::value_word))]
fn value_word(
    alloc: Global,
    choice: Choice,
    word: &str,
    reader: &mut Reader,
) -> Result<Option<WordFault>, NoMemory>
    ensures { IfOk result (λ fault. spec.after fault reader.new ≡ spec.value_word choice word.now reader.old.request) }
{
    if begins_with_dash(word) {
        return Ok(Some(WordFault::MissingValue(choice)));
    }
    set_value(alloc, choice, word, reader)
}

// A file.
fn file_word(reader: &mut Reader, word: &str) -> Result<Option<WordFault>, NoMemory>
    ensures { IfOk result (λ fault. spec.after fault reader.new ≡ Ok (spec.with_file Next.File word.now reader.old.request)) }
{
    push_file(Next::File, reader, word)?;
    Ok(None)
}

/// Takes one word more, or says why it is refused; then the reader is of no more use. The error comes when memory runs out.
#[tactic(auto, unfolding(crate::specs::Steps::step))]
pub(crate) fn step(
    alloc: Global,
    reader: &mut Reader,
    word: &str,
) -> Result<Option<WordFault>, NoMemory>
    ensures { IfOk result (λ fault. spec.after fault reader.new ≡ spec.step word.now reader.old) }
{
    match reader.next {
        Next::Any => any_word(alloc, word, reader),
        Next::Value(choice) => value_word(alloc, choice, word, reader),
        Next::File => file_word(reader, word),
    }
}
