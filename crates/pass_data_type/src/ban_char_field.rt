//! Texts that are padded with blanks.

ghost use Rattle.std.specs.Prelude.{◌≡◌, IfOk, OnOk, OnErr, false};
ghost use Rattle.lint_pass.specs.sql_name.Compared.{full_name_text, full_text};
ghost use Rattle.pass_data_type.specs.BanCharField as spec;

use crate::type_name::is_word;
use crate::type_rule::{TypeRule, report_types};
use lint_pass::{
    ColType, Fix, FullName, LinterSettings, NoMemory, Parse, Reports, Rule, StatementPass, Stmt,
    Text, TyKind, Violation, has_arguments, is_of_kind, name_at, replacement_fix,
};
use std::alloc::Global;

const MESSAGE: &str =
    "using `character` is likely a mistake and should almost always be replaced by `text` or `varchar`";

const VARCHAR_TITLE: &str = "Replace with `varchar`";

const TEXT_TITLE: &str = "Replace with `text`";

/// Reports each column of the type `char`, `character` or `bpchar`, with a length and without one.
///
/// `char(n)` pads each value with blanks, and drops them again where values are compared or measured, so that patterns and joins
/// with other texts give surprising answers; `char` alone holds one character. None of it saves space or time. To change the type
/// later rewrites the table under an ACCESS EXCLUSIVE lock.
///
/// PostgreSQL manual, section 8.3, "Character Types".
#[derive(Drop)]
pub struct BanCharField;

/// Whether a name is a quoted identifier.
fn is_quoted(name: &FullName<'_>) -> bool
    ensures { result ≡ spec.is_quoted (full_name_text name.now) }
{
    matches!(name.text().as_bytes(), [b'"', ..])
}

/// Whether a word names a type that is padded with blanks.
#[tactic(auto, using(crate::proofs::CharNames::lower_name))]
fn is_char_word(name: &FullName<'_>) -> bool
    requires { spec.is_quoted (full_name_text name.now) ≡ false }
    ensures { result ≡ spec.is_char_name (full_text name.now) }
{
    is_word(name, "char") || is_word(name, "character") || is_word(name, "bpchar")
}

/// Whether a name is that of a type that is padded with blanks, in any ASCII case.
fn is_char_text(alloc: Global, name: &FullName<'_>) -> Result<bool, NoMemory>
    ensures { IfOk result (λ b. b ≡ spec.is_char_name (full_text name.now)) }
{
    let name = name.folded(alloc)?;
    let name = name.as_str();
    Ok(
        name.eq_ignore_ascii_case("char")
            || name.eq_ignore_ascii_case("character")
            || name.eq_ignore_ascii_case("bpchar"),
    )
}

/// The same; a word takes no memory.
fn is_char_name(alloc: Global, name: &FullName<'_>) -> Result<bool, NoMemory>
    ensures { IfOk result (λ b. b ≡ spec.is_char_name (full_text name.now)) }
{
    if is_quoted(name) {
        is_char_text(alloc, name)
    } else {
        Ok(is_char_word(name))
    }
}

/// Whether a type is padded with blanks.
fn is_char(alloc: Global, p: &Parse<'_>, t: &ColType) -> Result<bool, NoMemory>
    ensures { IfOk result (λ b. b ≡ spec.is_char p.now t.now) }
{
    if is_of_kind(TyKind::Character, t) {
        Ok(true)
    } else if is_of_kind(TyKind::Path, t) {
        is_char_name(alloc, &name_at(p, t.name))
    } else {
        Ok(false)
    }
}

/// The fix of a type.
fn fix(alloc: Global, p: &Parse<'_>, t: &ColType) -> Result<Fix, NoMemory>
    ensures { IfOk result (λ fix. fix ≡ spec.fix p.now t.now) }
{
    let name = p.span_range(t.name, t.name);
    if has_arguments(t) {
        replacement_fix(
            alloc,
            Text::plain(VARCHAR_TITLE),
            Text::plain("varchar"),
            name,
        )
    } else {
        replacement_fix(alloc, Text::plain(TEXT_TITLE), Text::plain("text"), name)
    }
}

/// The report of a type.
#[tactic(auto, unfolding(crate::specs::BanCharField::report))]
fn report(alloc: Global, p: &Parse<'_>, t: &ColType) -> Result<Violation, NoMemory>
    ensures { IfOk result (λ v. v ≡ spec.report p.now t.now) }
{
    let fix = fix(alloc, p, t)?;
    Ok(Violation {
        code: Rule::BanCharField,
        message: Text::plain(MESSAGE),
        text_range: p.span_range(t.inner.first, t.inner.last),
        note: None,
        help: None,
        fix: Some(fix),
    })
}

impl TypeRule for BanCharField {
    ghost use Rattle.pass_data_type.specs.BanCharField.{is_char, report};

    ghost concerns = { λ _. is_char };

    ghost report_on = { λ _. report };

    fn report_type(
        &self,
        alloc: Global,
        p: &Parse<'_>,
        t: &ColType,
        out: &mut Reports,
    ) -> Result<(), NoMemory> {
        if is_char(alloc, p, t)? {
            out.push(report(alloc, p, t)?)
        } else {
            Ok(())
        }
    }
}

impl StatementPass for BanCharField {
    ghost use Rattle.lint_pass.specs.lint_base.declared.rule.Rule.TheVariants as rule;
    ghost use Rattle.pass_data_type.specs.BanCharField.{reports_of_ban_char_field};
    ghost use Rattle.pass_data_type.specs.BanCharFieldLaws.{chars_coded, chars_placed};

    ghost code = { λ _. rule.BanCharField };

    ghost reports = { λ _ tree _ s. reports_of_ban_char_field tree s };

    ghost coded = { λ _ tree _ s. chars_coded tree s };

    ghost placed = { λ _ tree _ s. chars_placed tree s };

    fn code(&self) -> Rule {
        Rule::BanCharField
    }

    fn report(
        &self,
        alloc: Global,
        p: &Parse<'_>,
        s: &Stmt,
        _set: &LinterSettings,
        out: &mut Reports,
    ) -> Result<(), NoMemory> {
        report_types(self, alloc, p, s, out)
    }
}
