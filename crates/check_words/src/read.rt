//! All words after `check`.
ghost use Rattle.std.specs.Prelude.{◌≡◌, IfOk, drop};
ghost use Rattle.check_words.specs.Asked.{are_apart, complete, ended, request_of, start};

use crate::fault::WordFault;
use crate::request::{Color, FailOn, Format, Request};
use crate::step::{Next, Reader, step};
use code_choice::{NoMemory, Text, Words, has_foreign_word};
use std::alloc::Global;

// What no word asks for.
fn start(alloc: Global) -> Reader
    ensures { result ≡ start }
{
    Reader {
        next: Next::Any,
        request: Request {
            format: Format::Text,
            color: Color::Auto,
            stdin_name: Text::fixed("stdin"),
            config: None,
            baseline: None,
            fail_on: FailOn::Warning,
            quiet: false,
            statistics: false,
            write_baseline: false,
            strict: false,
            files: Words::new(alloc),
            linter: Words::new(alloc),
        },
    }
}

// Whether `--only` is given beside the other lists of rules.
fn are_apart(request: &Request) -> bool
    ensures { result ≡ are_apart request.now }
{
    has_foreign_word(&request.linter, &["only"])
        && has_foreign_word(&request.linter, &["include", "exclude"])
}

// A request to which all words were read.
#[tactic(auto, unfolding(crate::specs::Asked::complete))]
fn complete(request: Request) -> Result<Request, WordFault>
    ensures { result ≡ complete request }
{
    if are_apart(&request) {
        return Err(WordFault::OnlyBesideLists);
    }
    Ok(request)
}

// What the words ask for, where no value is waited for.
fn ended(reader: Reader) -> Result<Request, WordFault>
    ensures { result ≡ ended reader.next reader.request }
{
    let Reader { next, request } = reader;
    match next {
        Next::Any | Next::File => complete(request),
        Next::Value(choice) => Err(WordFault::MissingValue(choice)),
    }
}

/// What the words from a number on ask for, or what is wrong with the first of them that is refused. The other error comes when memory
/// runs out.
pub(crate) fn read_request(
    alloc: Global,
    words: &Words,
    from: usize,
) -> Result<Result<Request, WordFault>, NoMemory>
    ensures { IfOk result (λ r. r ≡ request_of (drop from words.now)) }
{
    let mut reader = start(alloc);
    for i in from..words.len() {
        if let Some(fault) = step(alloc, &mut reader, words.get(i))? {
            return Ok(Err(fault));
        }
    }
    Ok(ended(reader))
}
