//! Why words are refused.
ghost use Rattle.std.specs.Prelude.{◌≡◌, IfOk};
ghost use Rattle.gate_command.specs.Faults as spec;

use refused_word::{NoMemory, Text, WordFault, Words, push, push_escaped, words_line};
use std::alloc::Global;

/// Why words are refused.
#[derive(Drop)]
pub enum Fault {
    /// What is wrong with a word, as `check` says it.
    Word(WordFault),
    /// `--order` has no such value.
    UnknownOrder(Text),
    /// `--order` is not followed by a value.
    NoOrder,
    /// No file is named.
    NoFiles,
    /// The linter refuses these words, or the last of them lacks its value.
    Linter(Words),
    /// `--one-session` beside `--assume-in-transaction`, which makes each file a transaction of its own.
    Beside,
}

// A line as it is.
fn fixed_line(alloc: Global, text: &[u8]) -> Result<Vec<u8>, NoMemory>
    ensures { IfOk result (λ line. line.items ≡ text.now) }
{
    let mut line = Vec::new(alloc);
    push(&mut line, text)?;
    Ok(line)
}

// The line about a value that `--order` does not have.
fn order_line(alloc: Global, value: &str) -> Result<Vec<u8>, NoMemory>
    ensures { IfOk result (λ line. line.items ≡ spec.order_line value.now) }
{
    let mut line = Vec::new(alloc);
    push(&mut line, b"error: --order: unknown value: ")?;
    push_escaped(&mut line, value.as_bytes())?;
    push(&mut line, b"; one of given, name\n")?;
    Ok(line)
}

/// The line about a fault. The error comes when memory runs out.
#[tactic(auto, unfolding(crate::specs::Faults::fault_line))]
pub(crate) fn fault_line(alloc: Global, fault: &Fault) -> Result<Vec<u8>, NoMemory>
    ensures { IfOk result (λ line. line.items ≡ spec.fault_line fault.now) }
{
    match fault {
        Fault::Word(fault) => refused_word::fault_line(alloc, fault),
        Fault::UnknownOrder(value) => order_line(alloc, value.as_str()),
        Fault::NoOrder => fixed_line(alloc, b"error: --order: its value is missing\n"),
        Fault::NoFiles => fixed_line(
            alloc,
            b"error: no files are named; --help lists what there is\n",
        ),
        Fault::Linter(words) => words_line(alloc, words),
        Fault::Beside => fixed_line(
            alloc,
            b"error: --one-session: not beside --assume-in-transaction\n",
        ),
    }
}
