//! What words choose for the gate.

ghost use Rattle.std.specs.Prelude.{◌≡◌, ◌↔◌, false, true, IfOk, IfSome, IsSome};
ghost use Rattle.squawk_linter.specs.lint_base.declared.rule.Rule.{Rule};
ghost use Rattle.squawk_linter.specs.lint_base.RuleSets.{has};
ghost use Rattle.squawk_linter.specs.lint_base.Rules.{is_opt_in};
ghost use Rattle.migration_gate.specs.GateWords.{AreTaken, gate_choices_of, has_foreign};

use squawk_linter::NoMemory;
use squawk_run::laws::foreign_stays_unset;
use squawk_run::{Choices, Words, has_foreign_word, read_choices};
use std::alloc::Global;

/// Whether some word is an option of the linter's command line that the gate does not take.
fn has_foreign(words: &Words) -> bool
    ensures { result ≡ has_foreign words.now }
{
    has_foreign_word(words, &["only", "exclude", "generate", "locks"])
}

/// What words choose for the gate, or `None` exactly where they are refused.
///
/// The words are `--include`, `--non-volatile`, `--assume-in-transaction`, `--pg-major`, `--pg-minor` and `--pg-patch`, as
/// [`read_choices`] takes them. So all rules of the default set are enabled. The error comes when memory runs out.
pub fn read_gate_choices(alloc: Global, words: &Words) -> Result<Option<Choices>, NoMemory>
    ensures value { IfOk result (λ choices. choices ≡ gate_choices_of words.now) }
    ensures taken { IfOk result (λ choices. IsSome choices ↔ AreTaken words.now) }
    ensures defaults { IfOk result (λ choices. IfSome choices (λ c. (r : Rule) → is_opt_in r ≡ false → has c.rules r ≡ true)) }
{
    foreign_stays_unset();
    if has_foreign(words) {
        return Ok(None);
    }
    read_choices(alloc, words)
}
