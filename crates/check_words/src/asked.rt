//! What words ask for.
ghost use Rattle.std.specs.Prelude.{◌≡◌, IfOk};
ghost use Rattle.check_words.specs.Asked.{asked_of, by_request, fault_in};

use crate::fault::WordFault;
use crate::read::read_request;
use crate::request::Request;
use code_choice::{NoMemory, Text, Words};
use help_words::{asks_for_help, asks_for_version};
use std::alloc::Global;

/// What the words after the program's name ask for.
#[derive(Drop)]
pub enum Asked {
    /// Files are to be checked.
    Check(Request),
    /// The help is to be printed.
    Help,
    /// The version is to be printed.
    Version,
    /// Nothing that there is, and why.
    Refused(WordFault),
}

// What is asked for, by what the words after `check` ask for.
fn by_request(request: Result<Request, WordFault>) -> Asked
    ensures { result ≡ by_request request }
{
    match request {
        Ok(request) => Asked::Check(request),
        Err(fault) => Asked::Refused(fault),
    }
}

// The fault of a word that is no command.
fn unknown_command(alloc: Global, word: &str) -> Result<Asked, NoMemory>
    ensures { IfOk result (λ asked. asked ≡ Asked.Refused (WordFault.UnknownCommand word.now)) }
{
    let word = String::from_str(alloc, word)?;
    Ok(Asked::Refused(WordFault::UnknownCommand(Text::made(word))))
}

/// What the words after the program's name ask for. The error comes when memory runs out.
pub fn read_asked(alloc: Global, words: &Words) -> Result<Asked, NoMemory>
    ensures { IfOk result (λ asked. asked ≡ asked_of words.now) }
{
    if asks_for_help(words) {
        return Ok(Asked::Help);
    }
    if asks_for_version(words) {
        return Ok(Asked::Version);
    }
    if words.is_empty() {
        return Ok(Asked::Refused(WordFault::NoCommand));
    }
    if words.get(0) != "check" {
        return unknown_command(alloc, words.get(0));
    }
    Ok(by_request(read_request(alloc, words, 1)?))
}

/// What `check` finds wrong with words that come after it: with the first one that it refuses, or with all of them. The error comes when
/// memory runs out.
pub fn fault_in(alloc: Global, words: &Words) -> Result<Option<WordFault>, NoMemory>
    ensures { IfOk result (λ fault. fault ≡ fault_in words.now) }
{
    match read_request(alloc, words, 0)? {
        Ok(_) => Ok(None),
        Err(fault) => Ok(Some(fault)),
    }
}
