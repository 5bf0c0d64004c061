//! All words after `fix`.
ghost use Rattle.std.specs.Prelude.{◌≡◌, IfOk, drop};
ghost use Rattle.fix_words.specs.Asked.{ended, request_of, start, unknown_word};

use crate::asked::Asked;
use crate::fault::Fault;
use crate::request::Request;
use crate::step::{Next, Reader, step};
use refused_word::{Choice, NoMemory, Text, WordFault, Words};
use std::alloc::Global;

// What no word asks for.
fn start(alloc: Global) -> Reader
    ensures { result ≡ start }
{
    Reader {
        next: Next::Any,
        request: Request {
            write: false,
            with_unsafe: false,
            config: None,
            files: Words::new(alloc),
            linter: Words::new(alloc),
        },
    }
}

// What the words ask for, where no value is waited for.
fn ended(reader: Reader) -> Asked
    ensures { result ≡ ended reader.next reader.request }
{
    let Reader { next, request } = reader;
    match next {
        Next::Any | Next::File => Asked::Fix(request),
        Next::ConfigValue => Asked::Refused(Fault::Word(WordFault::MissingValue(Choice::Config))),
        Next::LinterValue => Asked::Refused(Fault::Linter(request.linter)),
    }
}

// A word that there isn't.
fn unknown_word(alloc: Global, word: &str) -> Result<Asked, NoMemory>
    ensures { IfOk result (λ asked. asked ≡ unknown_word word.now) }
{
    let word = Text::made(String::from_str(alloc, word)?);
    Ok(Asked::Refused(Fault::Word(WordFault::UnknownWord(word))))
}

/// What the words after the first ask for. The error comes when memory runs out.
pub(crate) fn read_request(alloc: Global, words: &Words) -> Result<Asked, NoMemory>
    ensures { IfOk result (λ asked. asked ≡ request_of (drop 1 words.now)) }
{
    let mut reader = start(alloc);
    for i in 1..words.len() {
        let word = words.get(i);
        if !step(alloc, &mut reader, word)? {
            return unknown_word(alloc, word);
        }
    }
    Ok(ended(reader))
}
