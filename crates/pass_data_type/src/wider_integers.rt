//! Integer types that are too narrow for keys.

ghost use Rattle.std.specs.Prelude.{◌≡◌, IfOk};
ghost use Rattle.lint_pass.specs.sql_name.Compared.{full_text};
ghost use Rattle.pass_data_type.specs.TypeNames.{row_for, row_of};
ghost use Rattle.pass_data_type.specs.WiderIntegers as spec;
ghost use Rattle.pass_data_type.specs.WiderIntegers.{int_rows, smallint_rows};

use crate::type_name::is_word;
use crate::type_rule::{TypeRule, report_types};
use lint_pass::{
    ColType, FullName, LinterSettings, NoMemory, Parse, Reports, Rule, StatementPass, Stmt, Text,
    TyKind, Violation, is_of_kind, name_at, replacement_fix,
};
use std::alloc::Global;

const INT_MESSAGE: &str = "using 32-bit integer fields can result in hitting the max `int` limit";

const SMALLINT_MESSAGE: &str =
    "using 16-bit integer fields can result in hitting the max `smallint` limit";

const HELP: &str = "use 64-bit integer values instead to prevent hitting this limit";

/// Reports each column of a 32-bit integer type: `int`, `integer`, `int4`, `serial` and `serial4`.
///
/// It holds numbers up to 2147483647. A key that counts up reaches that one day, and from then on every INSERT fails. To make the
/// column wider then rewrites the table and its indexes while nobody can read or write it.
///
/// PostgreSQL manual, sections 8.1.1, "Integer Types", and 8.1.4, "Serial Types".
#[derive(Drop)]
pub struct PreferBigintOverInt;

/// Reports each column of a 16-bit integer type: `smallint`, `int2`, `smallserial` and `serial2`.
///
/// It holds numbers up to 32767, which a key or a counter soon reaches. From then on every INSERT fails, and to make the column
/// wider rewrites the table and its indexes while nobody can read or write it.
///
/// PostgreSQL manual, sections 8.1.1, "Integer Types", and 8.1.4, "Serial Types".
#[derive(Drop)]
pub struct PreferBigintOverSmallint;

/// A 64-bit integer type, by the name that is to be written (PostgreSQL manual, section 8.1). It is public since laws of fixes
/// speak of it.
#[derive(Clone, Copy)]
pub enum WideInteger {
    Bigint,
    Int8,
    Bigserial,
    Serial8,
}

impl WideInteger {
    /// The name.
    fn word(self) -> Text
        ensures { result ≡ spec.word self }
    {
        match self {
            WideInteger::Bigint => Text::plain("bigint"),
            WideInteger::Int8 => Text::plain("int8"),
            WideInteger::Bigserial => Text::plain("bigserial"),
            WideInteger::Serial8 => Text::plain("serial8"),
        }
    }

    /// The title of a fix that writes it.
    fn title(self) -> Text
        ensures { result ≡ spec.title self }
    {
        match self {
            WideInteger::Bigint => Text::plain("Replace with a 64-bit integer type: `bigint`"),
            WideInteger::Int8 => Text::plain("Replace with a 64-bit integer type: `int8`"),
            WideInteger::Bigserial => {
                Text::plain("Replace with a 64-bit integer type: `bigserial`")
            }
            WideInteger::Serial8 => Text::plain("Replace with a 64-bit integer type: `serial8`"),
        }
    }
}

/// What to write for the name of a 32-bit integer type.
fn wider_than_int(name: &FullName<'_>) -> Option<WideInteger>
    ensures { result ≡ row_of int_rows (full_text name.now) }
{
    if is_word(name, "int") {
        Some(WideInteger::Bigint)
    } else if is_word(name, "integer") {
        Some(WideInteger::Bigint)
    } else if is_word(name, "int4") {
        Some(WideInteger::Int8)
    } else if is_word(name, "serial") {
        Some(WideInteger::Bigserial)
    } else if is_word(name, "serial4") {
        Some(WideInteger::Serial8)
    } else {
        None
    }
}

/// What to write for the name of a 16-bit integer type.
fn wider_than_smallint(name: &FullName<'_>) -> Option<WideInteger>
    ensures { result ≡ row_of smallint_rows (full_text name.now) }
{
    if is_word(name, "smallint") {
        Some(WideInteger::Bigint)
    } else if is_word(name, "int2") {
        Some(WideInteger::Int8)
    } else if is_word(name, "smallserial") {
        Some(WideInteger::Bigserial)
    } else if is_word(name, "serial2") {
        Some(WideInteger::Serial8)
    } else {
        None
    }
}

/// What to write for a 32-bit integer type.
#[tactic(auto, unfolding(crate::specs::TypeNames::row_for))]
fn wider_int(p: &Parse<'_>, t: &ColType) -> Option<WideInteger>
    ensures { result ≡ row_for int_rows p.now t.now }
{
    if is_of_kind(TyKind::Path, t) {
        wider_than_int(&name_at(p, t.name))
    } else {
        None
    }
}

/// What to write for a 16-bit integer type.
#[tactic(auto, unfolding(crate::specs::TypeNames::row_for))]
fn wider_smallint(p: &Parse<'_>, t: &ColType) -> Option<WideInteger>
    ensures { result ≡ row_for smallint_rows p.now t.now }
{
    if is_of_kind(TyKind::Path, t) {
        wider_than_smallint(&name_at(p, t.name))
    } else {
        None
    }
}

/// The report of a type in place of which another one is to be written.
#[tactic(auto, unfolding(crate::specs::WiderIntegers::report))]
fn report(
    alloc: Global,
    p: &Parse<'_>,
    t: &ColType,
    code: Rule,
    message: Text,
    wide: WideInteger,
) -> Result<Violation, NoMemory>
    ensures { IfOk result (λ v. v ≡ spec.report code message p.now t.now wide) }
{
    let name = p.span_range(t.name, t.name);
    let fix = replacement_fix(alloc, wide.title(), wide.word(), name)?;
    Ok(Violation {
        code,
        message,
        text_range: p.span_range(t.whole.first, t.whole.last),
        note: None,
        help: Some(Text::plain(HELP)),
        fix: Some(fix),
    })
}

impl TypeRule for PreferBigintOverInt {
    ghost use Rattle.pass_data_type.specs.WiderIntegers.{int_report, is_int};

    ghost concerns = { λ _. is_int };

    ghost report_on = { λ _. int_report };

    fn report_type(
        &self,
        alloc: Global,
        p: &Parse<'_>,
        t: &ColType,
        out: &mut Reports,
    ) -> Result<(), NoMemory> {
        match wider_int(p, t) {
            Some(wide) => {
                let message = Text::plain(INT_MESSAGE);
                out.push(report(alloc, p, t, Rule::PreferBigintOverInt, message, wide)?)
            }
            None => Ok(()),
        }
    }
}

impl TypeRule for PreferBigintOverSmallint {
    ghost use Rattle.pass_data_type.specs.WiderIntegers.{smallint_report, is_smallint};

    ghost concerns = { λ _. is_smallint };

    ghost report_on = { λ _. smallint_report };

    fn report_type(
        &self,
        alloc: Global,
        p: &Parse<'_>,
        t: &ColType,
        out: &mut Reports,
    ) -> Result<(), NoMemory> {
        match wider_smallint(p, t) {
            Some(wide) => {
                let message = Text::plain(SMALLINT_MESSAGE);
                out.push(report(alloc, p, t, Rule::PreferBigintOverSmallint, message, wide)?)
            }
            None => Ok(()),
        }
    }
}

impl StatementPass for PreferBigintOverInt {
    ghost use Rattle.lint_pass.specs.lint_base.declared.rule.Rule.TheVariants as rule;
    ghost use Rattle.pass_data_type.specs.WiderIntegers.{reports_of_prefer_bigint_over_int};
    ghost use Rattle.pass_data_type.specs.WiderIntegersLaws.{ints_coded, ints_placed};

    ghost code = { λ _. rule.PreferBigintOverInt };

    ghost reports = { λ _ tree _ s. reports_of_prefer_bigint_over_int tree s };

    ghost coded = { λ _ tree _ s. ints_coded tree s };

    ghost placed = { λ _ tree _ s. ints_placed tree s };

    fn code(&self) -> Rule {
        Rule::PreferBigintOverInt
    }

    fn report(
        &self,
        alloc: Global,
        p: &Parse<'_>,
        s: &Stmt,
        _set: &LinterSettings,
        out: &mut Reports,
    ) -> Result<(), NoMemory> {
        report_types(self, alloc, p, s, out)
    }
}

impl StatementPass for PreferBigintOverSmallint {
    ghost use Rattle.lint_pass.specs.lint_base.declared.rule.Rule.TheVariants as rule;
    ghost use Rattle.pass_data_type.specs.WiderIntegers.{reports_of_prefer_bigint_over_smallint};
    ghost use Rattle.pass_data_type.specs.WiderIntegersLaws.{smallints_coded, smallints_placed};

    ghost code = { λ _. rule.PreferBigintOverSmallint };

    ghost reports = { λ _ tree _ s. reports_of_prefer_bigint_over_smallint tree s };

    ghost coded = { λ _ tree _ s. smallints_coded tree s };

    ghost placed = { λ _ tree _ s. smallints_placed tree s };

    fn code(&self) -> Rule {
        Rule::PreferBigintOverSmallint
    }

    fn report(
        &self,
        alloc: Global,
        p: &Parse<'_>,
        s: &Stmt,
        _set: &LinterSettings,
        out: &mut Reports,
    ) -> Result<(), NoMemory> {
        report_types(self, alloc, p, s, out)
    }
}
