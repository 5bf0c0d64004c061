//! The linter that words name.
ghost use Rattle.std.specs.Prelude.{◌≡◌, ◌↔◌, IfOk, IfSome, IsSome};
ghost use Rattle.squawk_linter.specs.law_clean.Clean.{HasDefaults};
ghost use Rattle.migration_gate.specs.GateWords.{AreTaken};
ghost use Rattle.migration_gate.specs.Config.{linter_by, linter_of};

use crate::read_gate_choices;
use squawk_linter::{Linter, NoMemory};
use squawk_run::{Choices, Words};
use std::alloc::Global;

fn linter_by(choices: Choices) -> Linter
    ensures { result ≡ linter_by choices }
{
    Linter {
        rules: choices.rules,
        settings: choices.settings,
    }
}

/// The linter that words name, or `None` exactly where the words are refused. Which words there are, [`read_gate_choices`] says. The error
/// comes when memory runs out.
pub fn linter_of(alloc: Global, words: &Words) -> Result<Option<Linter>, NoMemory>
    ensures value { IfOk result (λ linter. linter ≡ linter_of words.now) }
    ensures taken { IfOk result (λ linter. IsSome linter ↔ AreTaken words.now) }
    ensures defaults { IfOk result (λ linter. IfSome linter (λ l. HasDefaults l.rules)) }
{
    match read_gate_choices(alloc, words)? {
        None => Ok(None),
        Some(choices) => Ok(Some(linter_by(choices))),
    }
}
