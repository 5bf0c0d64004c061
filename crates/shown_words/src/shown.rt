//! Words on a line.
ghost use Rattle.std.specs.Prelude.{◌≡◌, ◌++◌, OnOk};
ghost use Rattle.shown_words.specs.Shown.{word_part, words_part};

use source_file::{NoMemory, push_escaped};
use squawk_words::Words;

/// Adds a blank, and the word with escapes for what a line can't have. The error comes when memory runs out.
pub fn push_word(to: &mut Vec<u8>, word: &str) -> Result<(), NoMemory>
    ensures { OnOk result (to.new.items ≡ to.old.items ++ word_part word.now) }
{
    to.push(b' ')?;
    push_escaped(to, word.as_bytes())
}

/// Adds words in their order, each after a blank. The error comes when memory runs out.
pub fn push_words(to: &mut Vec<u8>, words: &Words) -> Result<(), NoMemory>
    ensures { OnOk result (to.new.items ≡ to.old.items ++ words_part words.now) }
{
    for i in 0..words.len() {
        push_word(to, words.get(i))?;
    }
    Ok(())
}
