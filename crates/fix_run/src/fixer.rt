//! What fixes a text.
ghost use Rattle.std.specs.Prelude.{ℕ, ◌<◌, ◌^◌, IfOk, List, length};
ghost use Rattle.fix_run.specs.Outcomes.{IsPlacedIn};

use fix_output::{NoMemory, OtherFix, Text};
use gate_files::Refusal;
use std::alloc::Global;

/// What comes of a text.
#[derive(Drop)]
pub enum TextOutcome {
    /// The text in which the fixes were made, and those that were not, since another one changes the same bytes and comes first.
    Fixed { text: Text, others: Vec<OtherFix> },
    /// It can't be parsed.
    Refused(Refusal),
}

/// What fixes a text. `answers` says what comes of which text.
pub trait Fixer {
    ghost use Rattle.fix_run.specs.declared.fixer.TextOutcome.{TextOutcome};

    ghost answers: { Self → List ℕ → TextOutcome → Type 0 };

    /// What comes of a text. A refusal is at a place of the text, and so is each fix that was not made. The error comes when memory runs
    /// out.
    fn fix(&self, alloc: Global, text: &str) -> Result<TextOutcome, NoMemory>
        requires { length text.now < 2 ^ 32 }
        ensures answer { IfOk result (answers self.now text.now) }
        ensures placed { IfOk result (IsPlacedIn text.now) };
}
