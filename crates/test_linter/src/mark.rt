//! A pass of these tests: it reports each statement.

ghost use Rattle.std.specs.Prelude.{◌≡◌};
ghost use Rattle.test_linter.specs.Marks.{report};

use case_format::NoMemory;
use squawk_cli::{LinterSettings, Parse, Reports, Rule, StatementPass, Stmt, Text, Violation};
use std::alloc::Global;

const MESSAGE: &str = "mark";

/// Reports each statement by the rule that bans DROP TABLE, with the message `mark` and the statement's range.
#[derive(Drop)]
pub struct Mark;

#[tactic(auto, unfolding(crate::specs::Marks::report))]
fn report(p: &Parse<'_>, s: &Stmt) -> Violation
    ensures { result ≡ report p.now s.now }
{
    Violation {
        code: Rule::BanDropTable,
        message: Text::fixed(MESSAGE),
        text_range: p.stmt_range(s),
        note: None,
        help: None,
        fix: None,
    }
}

impl StatementPass for Mark {
    ghost use Rattle.std.specs.Prelude.{[], ◌∷◌};
    ghost use Rattle.squawk_cli.specs.lint_base.declared.rule.Rule.TheVariants as rule;
    ghost use Rattle.test_linter.specs.MarkLaws.{mark_coded, mark_placed};
    ghost use Rattle.test_linter.specs.Marks.{report};

    ghost code = { λ _. rule.BanDropTable };

    ghost reports = { λ _ tree _ s. report tree s ∷ [] };

    ghost coded = { λ _ tree _ s. mark_coded tree s };

    ghost placed = { λ _ tree _ s. mark_placed tree s };

    fn code(&self) -> Rule {
        Rule::BanDropTable
    }

    fn report(
        &self,
        _alloc: Global,
        p: &Parse<'_>,
        s: &Stmt,
        _set: &LinterSettings,
        out: &mut Reports,
    ) -> Result<(), NoMemory> {
        out.push(report(p, s))
    }
}
