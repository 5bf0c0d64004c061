//! All words after `gate`.
ghost use Rattle.std.specs.Prelude.{◌≡◌, IfOk, drop};
ghost use Rattle.gate_command.specs.Asked.{ended, request_of, start};

use crate::asked::Asked;
use crate::fault::Fault;
use crate::request::Request;
use crate::step::{Next, Reader, step};
use gate_files::Order;
use refused_word::{NoMemory, Words};
use std::alloc::Global;

// What no word asks for.
fn start(alloc: Global) -> Reader
    ensures { result ≡ start }
{
    Reader {
        next: Next::Any,
        request: Request {
            order: Order::Given,
            works: false,
            one_session: false,
            files: Words::new(alloc),
            linter: Words::new(alloc),
        },
    }
}

// What the words ask for, where no value is waited for.
fn ended(reader: Reader) -> Asked
    ensures { result ≡ ended reader.next reader.request }
{
    let Reader { next, request } = reader;
    match next {
        Next::Any | Next::File => Asked::Gate(request),
        Next::OrderValue => Asked::Refused(Fault::NoOrder),
        Next::LinterValue => Asked::Refused(Fault::Linter(request.linter)),
    }
}

/// What the words after the first ask for. The error comes when memory runs out.
pub(crate) fn read_request(alloc: Global, words: &Words) -> Result<Asked, NoMemory>
    ensures { IfOk result (λ asked. asked ≡ request_of (drop 1 words.now)) }
{
    let mut reader = start(alloc);
    for i in 1..words.len() {
        match step(alloc, reader, words.get(i))? {
            Ok(next) => reader = next,
            Err(fault) => return Ok(Asked::Refused(fault)),
        }
    }
    Ok(ended(reader))
}
