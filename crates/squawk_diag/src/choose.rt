//! The linter that words name.
ghost use Rattle.std.specs.Prelude.{◌≡◌, ◌↔◌, IfOk, IsSome};
ghost use Rattle.squawk_run.specs.TextChoices.{AreTaken};
ghost use Rattle.squawk_diag.specs.Chosen.{linter_by, linter_of};

use squawk_linter::{Linter, NoMemory};
use squawk_run::{Choices, Words, read_text_choices};
use std::alloc::Global;

fn linter_by(choices: Choices) -> Linter
    ensures { result ≡ linter_by choices }
{
    Linter {
        rules: choices.rules,
        settings: choices.settings,
    }
}

/// The linter that words name, or `None` exactly where the words are refused. Which words there are, [`read_text_choices`] says. The
/// error comes when memory runs out.
pub(crate) fn linter_of(alloc: Global, words: &Words) -> Result<Option<Linter>, NoMemory>
    ensures value { IfOk result (λ linter. linter ≡ linter_of words.now) }
    ensures taken { IfOk result (λ linter. IsSome linter ↔ AreTaken words.now) }
{
    match read_text_choices(alloc, words)? {
        None => Ok(None),
        Some(choices) => Ok(Some(linter_by(choices))),
    }
}
