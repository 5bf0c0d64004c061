//! New values of enums without a place.

ghost use Rattle.std.specs.Prelude.{◌≡◌, ◌++◌, IfOk, OnOk, OnErr};
ghost use Rattle.lint_pass.specs.lint_base.Grown.{GrownBy};
ghost use Rattle.lint_pass.specs.Those.{that, those};
ghost use Rattle.pass_data_type.specs.RequireEnumValueOrdering as spec;
ghost use Rattle.pass_data_type.specs.RequireEnumValueOrdering.{adds_last};

use lint_pass::{
    Action, ActionKind, Fix, LinterSettings, NoMemory, Parse, Reports, Rule, StatementPass, Stmt,
    StmtKind, Text, Violation, actions_of, insertion_fix, same_action, same_kind,
};
use std::alloc::Global;

const MESSAGE: &str =
    "`add value` without `before` or `after` appends the value to the end of the enum, which may result in unexpected ordering";

const HELP: &str = "add `before` or `after` to specify the position of the new enum value";

const TITLE: &str = "Insert `before` clause";

const INSERTED: &str = " BEFORE 'existing_value'";

/// Reports each ADD VALUE of an ALTER TYPE that has neither BEFORE nor AFTER.
///
/// The new value then comes after all others, in comparisons, in ORDER BY and in indexes. Two migrations that add a value each may
/// run in either order in two databases, which from then on sort differently. A value can be renamed later, but neither moved nor
/// removed.
///
/// PostgreSQL manual, ALTER TYPE, "ADD VALUE", and section 8.7.2, "Ordering".
#[derive(Drop)]
pub struct RequireEnumValueOrdering;

/// The fix of an action, where it has a value.
fn fix(alloc: Global, p: &Parse<'_>, a: &Action) -> Result<Option<Fix>, NoMemory>
    ensures { IfOk result (λ fix. fix ≡ spec.fix p.now a.now) }
{
    match a.name {
        Some(value) => {
            let at = p.span_range(value, value).end();
            let fix = insertion_fix(alloc, Text::plain(TITLE), Text::plain(INSERTED), at)?;
            Ok(Some(fix))
        }
        None => Ok(None),
    }
}

/// The report of an action.
#[tactic(auto, unfolding(crate::specs::RequireEnumValueOrdering::report))]
fn report(alloc: Global, p: &Parse<'_>, a: &Action) -> Result<Violation, NoMemory>
    ensures { IfOk result (λ v. v ≡ spec.report p.now a.now) }
{
    let fix = fix(alloc, p, a)?;
    Ok(Violation {
        code: Rule::RequireEnumValueOrdering,
        message: Text::plain(MESSAGE),
        text_range: p.span_range(a.first, a.last),
        note: None,
        help: Some(Text::plain(HELP)),
        fix,
    })
}

/// Reports an action that adds a value without a place.
fn report_action(
    alloc: Global,
    p: &Parse<'_>,
    a: &Action,
    out: &mut Reports,
) -> Result<(), NoMemory>
    ensures ok { OnOk result (out.new ≡ out.old ++ that adds_last (spec.report p.now) a.now) }
    ensures err { OnErr result (out.new ≡ out.old) }
{
    if same_action(a.kind, ActionKind::AddValue) && !a.placed {
        out.push(report(alloc, p, a)?)
    } else {
        Ok(())
    }
}

/// Reports each action that adds a value without a place.
fn report_added(
    alloc: Global,
    p: &Parse<'_>,
    actions: &[Action],
    out: &mut Reports,
) -> Result<(), NoMemory>
    ensures ok { OnOk result (out.new ≡ out.old ++ those adds_last (spec.report p.now) actions.now) }
    ensures err { OnErr result (GrownBy out.old out.new (those adds_last (spec.report p.now) actions.now)) }
{
    for a in actions {
        report_action(alloc, p, a, out)?;
    }
    Ok(())
}

impl StatementPass for RequireEnumValueOrdering {
    ghost use Rattle.lint_pass.specs.lint_base.declared.rule.Rule.TheVariants as rule;
    ghost use Rattle.pass_data_type.specs.RequireEnumValueOrdering.{reports_of_require_enum_value_ordering};
    ghost use Rattle.pass_data_type.specs.RequireEnumValueOrderingLaws.{added_coded, added_placed};

    ghost code = { λ _. rule.RequireEnumValueOrdering };

    ghost reports = { λ _ tree _ s. reports_of_require_enum_value_ordering tree s };

    ghost coded = { λ _ tree _ s. added_coded tree s };

    ghost placed = { λ _ tree _ s. added_placed tree s };

    fn code(&self) -> Rule {
        Rule::RequireEnumValueOrdering
    }

    fn report(
        &self,
        alloc: Global,
        p: &Parse<'_>,
        s: &Stmt,
        _set: &LinterSettings,
        out: &mut Reports,
    ) -> Result<(), NoMemory> {
        if same_kind(s.kind, StmtKind::AlterType) {
            report_added(alloc, p, actions_of(s), out)
        } else {
            Ok(())
        }
    }
}
