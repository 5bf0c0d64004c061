//! Timestamps without a time zone.

ghost use Rattle.std.specs.Prelude.{◌≡◌, IfOk};
ghost use Rattle.pass_data_type.specs.PreferTimestamptz as spec;

use crate::type_name::is_named;
use crate::type_rule::{TypeRule, report_types};
use lint_pass::{
    ColType, Fix, LinterSettings, NoMemory, Parse, Reports, Rule, StatementPass, Stmt, Text,
    Violation, has_arguments, is_without_zone, replacement_fix,
};
use std::alloc::Global;

const MESSAGE: &str = "`timestamp` drops the UTC offset when storing a datetime";

const NOTE: &str =
    "`2019-10-11 21:11:24+02` and `2019-10-11 21:11:24-06` are both stored as `2019-10-11 21:11:24`, even though they are eight hours apart";

const HELP: &str = "use `timestamptz` instead of `timestamp`";

const TITLE: &str = "Replace with `timestamptz`";

/// Reports each column of the type `timestamp` that is not one WITH TIME ZONE.
///
/// Such a column drops the offset of what is written to it, without an error. Clients in two zones, or one client before and
/// after a change of clocks, then write different moments as the same value, and which moment was meant can't be found out later.
/// `timestamptz` takes as much space and stores the moment itself.
///
/// A path to `varchar` with arguments, as `pg_catalog.varchar(10)`, is reported too, without a fix, as in the upstream crate.
///
/// PostgreSQL manual, sections 8.5, "Date/Time Types", and 8.5.1.3, "Time Stamps".
#[derive(Drop)]
pub struct PreferTimestamptz;

/// Whether a type is reported.
fn drops_offset(p: &Parse<'_>, t: &ColType) -> bool
    ensures { result ≡ spec.drops_offset p.now t.now }
{
    is_without_zone(t) || (has_arguments(t) && is_named(p, "varchar", t))
}

/// The fix, where the type is a timestamp.
fn fix(alloc: Global, p: &Parse<'_>, t: &ColType) -> Result<Option<Fix>, NoMemory>
    ensures { IfOk result (λ fix. fix ≡ spec.fix p.now t.now) }
{
    if is_without_zone(t) {
        let inner = p.span_range(t.inner.first, t.inner.last);
        let fix = replacement_fix(alloc, Text::plain(TITLE), Text::plain("timestamptz"), inner)?;
        Ok(Some(fix))
    } else {
        Ok(None)
    }
}

/// The report of a type.
#[tactic(auto, unfolding(crate::specs::PreferTimestamptz::report))]
fn report(alloc: Global, p: &Parse<'_>, t: &ColType) -> Result<Violation, NoMemory>
    ensures { IfOk result (λ v. v ≡ spec.report p.now t.now) }
{
    let fix = fix(alloc, p, t)?;
    Ok(Violation {
        code: Rule::PreferTimestampTz,
        message: Text::plain(MESSAGE),
        text_range: p.span_range(t.whole.first, t.whole.last),
        note: Some(Text::plain(NOTE)),
        help: Some(Text::plain(HELP)),
        fix,
    })
}

impl TypeRule for PreferTimestamptz {
    ghost use Rattle.pass_data_type.specs.PreferTimestamptz.{drops_offset, report};

    ghost concerns = { λ _. drops_offset };

    ghost report_on = { λ _. report };

    fn report_type(
        &self,
        alloc: Global,
        p: &Parse<'_>,
        t: &ColType,
        out: &mut Reports,
    ) -> Result<(), NoMemory> {
        if drops_offset(p, t) {
            out.push(report(alloc, p, t)?)
        } else {
            Ok(())
        }
    }
}

impl StatementPass for PreferTimestamptz {
    ghost use Rattle.lint_pass.specs.lint_base.declared.rule.Rule.TheVariants as rule;
    ghost use Rattle.pass_data_type.specs.PreferTimestamptz.{reports_of_prefer_timestamp_tz};
    ghost use Rattle.pass_data_type.specs.PreferTimestamptzLaws.{timestamps_coded, timestamps_placed};

    ghost code = { λ _. rule.PreferTimestampTz };

    ghost reports = { λ _ tree _ s. reports_of_prefer_timestamp_tz tree s };

    ghost coded = { λ _ tree _ s. timestamps_coded tree s };

    ghost placed = { λ _ tree _ s. timestamps_placed tree s };

    fn code(&self) -> Rule {
        Rule::PreferTimestampTz
    }

    fn report(
        &self,
        alloc: Global,
        p: &Parse<'_>,
        s: &Stmt,
        _set: &LinterSettings,
        out: &mut Reports,
    ) -> Result<(), NoMemory> {
        report_types(self, alloc, p, s, out)
    }
}
