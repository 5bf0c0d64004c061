//! What words ask for.
ghost use Rattle.std.specs.Prelude.{◌≡◌, ◌++◌, ◌∷◌, [], IfOk, OnOk, filter};
ghost use Rattle.server_command.specs.Asked as spec;

use refused_word::{NoMemory, Words};
use std::alloc::Global;

/// Whether words ask for a server: whether the first one is `server`.
pub fn is_server(words: &Words) -> bool
    ensures { result ≡ spec.is_server words.now }
{
    !words.is_empty() && words.get(0) == "server"
}

// Whether they ask for its help.
pub(crate) fn asks_for_help(words: &Words) -> bool
    ensures { result ≡ spec.asks_for_help words.now }
{
    refused_word::asks_for_help(words)
}

// Adds a word, unless it is `--stdio`, which some editors add.
fn push_taken(rest: &mut Words, word: &str) -> Result<(), NoMemory>
    ensures { OnOk result (rest.new ≡ rest.old ++ filter spec.is_taken (word.now ∷ [])) }
{
    if word == "--stdio" {
        return Ok(());
    }
    rest.push(word)
}

// The words after the first that choose the linter.
pub(crate) fn linter_words(alloc: Global, words: &Words) -> Result<Words, NoMemory>
    ensures { IfOk result (λ rest. rest ≡ spec.linter_words words.now) }
{
    let mut rest = Words::new(alloc);
    for i in 1..words.len() {
        push_taken(&mut rest, words.get(i))?;
    }
    Ok(rest)
}
