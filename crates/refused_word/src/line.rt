//! The line about words.
ghost use Rattle.std.specs.Prelude.{◌≡◌, IfOk};
ghost use Rattle.refused_word.specs.Messages.{line_of, not_taken_line, words_line};

use crate::message::message;
use check_words::{WordFault, fault_in};
use report_lines::{NoMemory, push, push_escaped};
use shown_words::{Words, push_words};
use std::alloc::Global;

/// The line that says what is wrong with the words, with its line feed. The error comes when memory runs out.
pub fn fault_line(alloc: Global, fault: &WordFault) -> Result<Vec<u8>, NoMemory>
    ensures { IfOk result (λ line. line.items ≡ line_of fault.now) }
{
    let text = message(alloc, fault)?;
    let mut line = Vec::new(alloc);
    push(&mut line, b"error: ")?;
    push_escaped(&mut line, text.as_str().as_bytes())?;
    push(&mut line, b"\n")?;
    Ok(line)
}

// The line that names words which another command takes.
fn not_taken_line(alloc: Global, words: &Words) -> Result<Vec<u8>, NoMemory>
    ensures { IfOk result (λ line. line.items ≡ not_taken_line words.now) }
{
    let mut line = Vec::new(alloc);
    push(&mut line, b"error: not taken here:")?;
    push_words(&mut line, words)?;
    push(&mut line, b"\n")?;
    Ok(line)
}

/// The line about words that a command refuses, with its line feed: what `check` finds wrong with them, or else that they are not taken
/// here. The error comes when memory runs out.
pub fn words_line(alloc: Global, words: &Words) -> Result<Vec<u8>, NoMemory>
    ensures { IfOk result (λ line. line.items ≡ words_line words.now) }
{
    match fault_in(alloc, words)? {
        Some(fault) => fault_line(alloc, &fault),
        None => not_taken_line(alloc, words),
    }
}
