//! What words choose for a program that reads one text and has an output of its own.
ghost use Rattle.std.specs.Prelude.{◌≡◌, ◌↔◌, IfOk, IsSome};
ghost use Rattle.squawk_run.specs.TextChoices.{AreTaken, text_choices_of};

use crate::foreign::has_foreign_word;
use devices::NoMemory;
use squawk_words::{Choices, Words, read_choices};
use std::alloc::Global;

/// What words choose, or `None` exactly where they are refused.
///
/// The words are those of [`read_choices`] without `--locks` and `--generate`: such a program reads its text, and has an output of its own.
/// The error comes when memory runs out.
pub fn read_text_choices(alloc: Global, words: &Words) -> Result<Option<Choices>, NoMemory>
    ensures value { IfOk result (λ choices. choices ≡ text_choices_of words.now) }
    ensures taken { IfOk result (λ choices. IsSome choices ↔ AreTaken words.now) }
{
    if has_foreign_word(words, &["locks", "generate"]) {
        return Ok(None);
    }
    read_choices(alloc, words)
}
