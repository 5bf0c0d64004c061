//! Texts with a greatest length.

ghost use Rattle.std.specs.Prelude.{◌≡◌, IfOk};
ghost use Rattle.pass_data_type.specs.PreferTextField as spec;

use crate::type_name::is_named;
use crate::type_rule::{TypeRule, report_types};
use lint_pass::{
    ColType, LinterSettings, NoMemory, Parse, Reports, Rule, StatementPass, Stmt, Text, TyKind,
    Violation, has_arguments, is_of_kind, replacement_fix,
};
use std::alloc::Global;

const MESSAGE: &str =
    "changing the size of a `varchar` field requires an `access exclusive` lock, that will prevent all reads and writes to the table";

const HELP: &str = "use a `text` field with a `check` constraint";

const TITLE: &str = "Replace with `text`";

/// Reports each column of the type `varchar` with a greatest length, as `varchar(50)` and `character varying(50)`.
///
/// Such lengths are outgrown. To change one takes an ACCESS EXCLUSIVE lock, so that reads and writes wait, and a smaller one
/// rewrites the table. `text` is stored in the same way and is as fast; its length can be limited by a CHECK constraint, which is
/// added as not valid in a moment and validated while clients go on.
///
/// PostgreSQL manual, section 8.3, "Character Types", and ALTER TABLE, Notes.
#[derive(Drop)]
pub struct PreferTextField;

/// Whether a type is `varchar` with a length.
fn is_sized_varchar(p: &Parse<'_>, t: &ColType) -> bool
    ensures { result ≡ spec.is_sized_varchar p.now t.now }
{
    has_arguments(t) && (is_of_kind(TyKind::Varchar, t) || is_named(p, "varchar", t))
}

/// The report of a type.
#[tactic(auto, unfolding(crate::specs::PreferTextField::report))]
fn report(alloc: Global, p: &Parse<'_>, t: &ColType) -> Result<Violation, NoMemory>
    ensures { IfOk result (λ v. v ≡ spec.report p.now t.now) }
{
    let inner = p.span_range(t.inner.first, t.inner.last);
    let fix = replacement_fix(alloc, Text::plain(TITLE), Text::plain("text"), inner)?;
    Ok(Violation {
        code: Rule::PreferTextField,
        message: Text::plain(MESSAGE),
        text_range: p.span_range(t.whole.first, t.whole.last),
        note: None,
        help: Some(Text::plain(HELP)),
        fix: Some(fix),
    })
}

impl TypeRule for PreferTextField {
    ghost use Rattle.pass_data_type.specs.PreferTextField.{is_sized_varchar, report};

    ghost concerns = { λ _. is_sized_varchar };

    ghost report_on = { λ _. report };

    fn report_type(
        &self,
        alloc: Global,
        p: &Parse<'_>,
        t: &ColType,
        out: &mut Reports,
    ) -> Result<(), NoMemory> {
        if is_sized_varchar(p, t) {
            out.push(report(alloc, p, t)?)
        } else {
            Ok(())
        }
    }
}

impl StatementPass for PreferTextField {
    ghost use Rattle.lint_pass.specs.lint_base.declared.rule.Rule.TheVariants as rule;
    ghost use Rattle.pass_data_type.specs.PreferTextField.{reports_of_prefer_text_field};
    ghost use Rattle.pass_data_type.specs.PreferTextFieldLaws.{varchars_coded, varchars_placed};

    ghost code = { λ _. rule.PreferTextField };

    ghost reports = { λ _ tree _ s. reports_of_prefer_text_field tree s };

    ghost coded = { λ _ tree _ s. varchars_coded tree s };

    ghost placed = { λ _ tree _ s. varchars_placed tree s };

    fn code(&self) -> Rule {
        Rule::PreferTextField
    }

    fn report(
        &self,
        alloc: Global,
        p: &Parse<'_>,
        s: &Stmt,
        _set: &LinterSettings,
        out: &mut Reports,
    ) -> Result<(), NoMemory> {
        report_types(self, alloc, p, s, out)
    }
}
