//! Tables that a TRUNCATE empties unnamed.

ghost use Rattle.std.specs.Prelude.{◌≡◌};
ghost use Rattle.pass_drop.specs.BanTruncateCascade as spec;

use lint_pass::{
    Body, LinterSettings, NoMemory, Parse, Reports, Rule, StatementPass, Stmt, Text, Violation,
};
use std::alloc::Global;

const MESSAGE: &str =
    "`cascade` recursively truncates every table with a foreign key to the truncated tables";

const NOTE: &str =
    "with foreign keys set up as `a <- b <- c`, truncating `a` also truncates `b` and `c`";

const HELP: &str = "remove the `cascade` and list exactly which tables to truncate";

/// Reports the word CASCADE of each TRUNCATE.
///
/// It empties every table that refers to the named ones, and those that refer to these, whatever is in them, and locks all of
/// them with ACCESS EXCLUSIVE. Which tables these are depends on the foreign keys of the day.
///
/// PostgreSQL manual, TRUNCATE, "CASCADE".
#[derive(Drop)]
pub struct BanTruncateCascade;

/// The report of the word with this number.
#[tactic(auto, unfolding(crate::specs::BanTruncateCascade::report))]
fn report(p: &Parse<'_>, word: u32) -> Violation
    ensures { result ≡ spec.report p.now word }
{
    Violation {
        code: Rule::BanTruncateCascade,
        message: Text::plain(MESSAGE),
        text_range: p.span_range(word, word),
        note: Some(Text::plain(NOTE)),
        help: Some(Text::plain(HELP)),
        fix: None,
    }
}

impl StatementPass for BanTruncateCascade {
    ghost use Rattle.lint_pass.specs.lint_base.declared.rule.Rule.TheVariants as rule;
    ghost use Rattle.pass_drop.specs.BanTruncateCascade.{reports_of_ban_truncate_cascade};
    ghost use Rattle.pass_drop.specs.BanTruncateCascadeLaws.{cascade_coded, cascade_placed};

    ghost code = { λ _. rule.BanTruncateCascade };

    ghost reports = { λ _ tree _ s. reports_of_ban_truncate_cascade tree s.body };

    ghost coded = { λ _ tree _ s. cascade_coded tree s.body };

    ghost placed = { λ _ tree _ s. cascade_placed tree s.body };

    fn code(&self) -> Rule {
        Rule::BanTruncateCascade
    }

    fn report(
        &self,
        _alloc: Global,
        p: &Parse<'_>,
        s: &Stmt,
        _set: &LinterSettings,
        out: &mut Reports,
    ) -> Result<(), NoMemory> {
        match s.body {
            Body::Truncate {
                cascade: Some(word),
            } => out.push(report(p, word)),
            _ => Ok(()),
        }
    }
}
