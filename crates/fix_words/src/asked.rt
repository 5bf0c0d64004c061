//! What words ask for.
ghost use Rattle.std.specs.Prelude.{◌≡◌, IfOk};
ghost use Rattle.fix_words.specs.Asked.{asked_of};

use crate::fault::Fault;
use crate::read::read_request;
use crate::request::Request;
use refused_word::{NoMemory, Words, asks_for_help};
use std::alloc::Global;

/// What the words after the program's name ask for.
#[derive(Drop)]
pub enum Asked {
    /// Texts are to be fixed.
    Fix(Request),
    /// The help is to be printed.
    Help,
    /// Nothing that there is.
    Refused(Fault),
}

/// What the words after the program's name ask for, of which the first is `fix`. The error comes when memory runs out.
pub fn read_asked(alloc: Global, words: &Words) -> Result<Asked, NoMemory>
    ensures { IfOk result (λ asked. asked ≡ asked_of words.now) }
{
    if asks_for_help(words) {
        return Ok(Asked::Help);
    }
    read_request(alloc, words)
}
