//! One word after another.
ghost use Rattle.std.specs.Prelude.{◌≡◌, IfOk, OnOk, option_map};
ghost use Rattle.fix_words.specs.Steps as spec;

use crate::request::Request;
use refused_word::{NoMemory, Text, after_dashes, is_option, name_in, value_in};
use std::alloc::Global;

/// What the next word is to be.
#[derive(Clone, Copy, Debug, PartialEq, Eq)]
pub(crate) enum Next {
    /// An option, or a file.
    Any,
    /// The value of `--config`.
    ConfigValue,
    /// The value of an option that chooses the linter.
    LinterValue,
    /// A file, after `--`.
    File,
}

/// What the words so far ask for, and what the next one is to be.
#[derive(Drop)]
pub(crate) struct Reader {
    pub(crate) next: Next,
    pub(crate) request: Request,
}

// Adds a file, and says what the next word is to be.
fn push_file(next: Next, reader: &mut Reader, word: &str) -> Result<(), NoMemory>
    ensures { OnOk result (reader.new ≡ spec.with_file next word.now reader.old.request) }
{
    reader.next = next;
    reader.request.files.push(word)
}

// Adds a word for the linter, and says what the next word is to be.
fn push_linter_word(next: Next, reader: &mut Reader, word: &str) -> Result<(), NoMemory>
    ensures { OnOk result (reader.new ≡ spec.with_linter_word next word.now reader.old.request) }
{
    reader.next = next;
    reader.request.linter.push(word)
}

// Sets the configuration file, after which any word may follow.
fn set_config(alloc: Global, reader: &mut Reader, value: &str) -> Result<(), NoMemory>
    ensures { OnOk result (reader.new ≡ spec.with_config value.now reader.old.request) }
{
    let text = Text::made(String::from_str(alloc, value)?);
    reader.next = Next::Any;
    reader.request.config = Some(text);
    Ok(())
}

// Whether an option for the linter takes no value.
fn is_flag(rest: &str) -> bool
    ensures { result ≡ spec.is_flag rest.now }
{
    rest == "assume-in-transaction" || rest == "no-hazards"
}

// What follows an option for the linter, which is given without its dashes.
#[tactic(auto, unfolding(crate::specs::Steps::after_linter_option))]
fn after_linter_option(rest: &str) -> Next
    ensures { result ≡ spec.after_linter_option rest.now }
{
    if value_in(rest).is_some() || is_flag(rest) {
        Next::Any
    } else {
        Next::LinterValue
    }
}

// `--config`, and what follows its `=`, if there is one.
fn config_word(alloc: Global, value: Option<&str>, reader: &mut Reader) -> Result<(), NoMemory>
    ensures { OnOk result (reader.new ≡ spec.config_word (option_map (λ s. s.now) value.entry) reader.old.request) }
{
    match value {
        Some(value) => set_config(alloc, reader, value),
        None => {
            reader.next = Next::ConfigValue;
            Ok(())
        }
    }
}

// An option with a value, or one for the linter, by what follows its dashes.
#[tactic(auto, unfolding(crate::specs::Steps::valued_word))]
fn valued_word(alloc: Global, word: &str, rest: &str, reader: &mut Reader) -> Result<(), NoMemory>
    ensures { OnOk result (reader.new ≡ spec.valued_word word.now rest.now reader.old.request) }
{
    if name_in(rest) == "config" {
        return config_word(alloc, value_in(rest), reader);
    }
    push_linter_word(after_linter_option(rest), reader, word)
}

// An option, by what follows its dashes.
#[tactic(auto, unfolding(crate::specs::Steps::option_word))]
fn option_word(alloc: Global, word: &str, rest: &str, reader: &mut Reader) -> Result<(), NoMemory>
    ensures { OnOk result (reader.new ≡ spec.option_word word.now rest.now reader.old.request) }
{
    match rest {
        "write" => reader.request.write = true,
        "unsafe" => reader.request.with_unsafe = true,
        _ => return valued_word(alloc, word, rest, reader),
    }
    reader.next = Next::Any;
    Ok(())
}

// A word that begins with `--`.
fn dashed_word(alloc: Global, word: &str, rest: &str, reader: &mut Reader) -> Result<(), NoMemory>
    ensures { OnOk result (reader.new ≡ spec.dashed_word word.now rest.now reader.old.request) }
{
    if rest.is_empty() {
        reader.next = Next::File;
        return Ok(());
    }
    option_word(alloc, word, rest, reader)
}

// A word that does not. Whether it is accepted.
fn plain_word(word: &str, reader: &mut Reader) -> Result<bool, NoMemory>
    ensures { IfOk result (λ is. spec.after is reader.new ≡ spec.plain_word word.now reader.old.request) }
{
    if is_option(word) {
        return Ok(false);
    }
    push_file(Next::Any, reader, word)?;
    Ok(true)
}

// A word that may be anything. Whether it is accepted.
#[tactic(auto, unfolding(crate::specs::Steps::any_word))]
fn any_word(alloc: Global, word: &str, reader: &mut Reader) -> Result<bool, NoMemory>
    ensures { IfOk result (λ is. spec.after is reader.new ≡ spec.any_word word.now reader.old.request) }
{
    match after_dashes(word) {
        Some(rest) => {
            dashed_word(alloc, word, rest, reader)?;
            Ok(true)
        }
        None => plain_word(word, reader),
    }
}

/// Takes one word more. Whether it is accepted; else the reader is of no more use. The error comes when memory runs out.
#[tactic(auto, unfolding(crate::specs::Steps::step))]
pub(crate) fn step(alloc: Global, reader: &mut Reader, word: &str) -> Result<bool, NoMemory>
    ensures { IfOk result (λ is. spec.after is reader.new ≡ spec.step word.now reader.old) }
{
    match reader.next {
        Next::Any => return any_word(alloc, word, reader),
        Next::ConfigValue => set_config(alloc, reader, word)?,
        Next::LinterValue => push_linter_word(Next::Any, reader, word)?,
        Next::File => push_file(Next::File, reader, word)?,
    }
    Ok(true)
}
