//! Fixes that are not made, since another one changes the same bytes and comes first.
ghost use Rattle.std.specs.Prelude.{◌≡◌, ◌++◌, ◌<◌, ◌^◌, if◌then◌else◌, [], All, IfOk, OnOk, length, slice_get};
ghost use Rattle.std.specs.Str.{IsCharBoundary};
ghost use Rattle.other_fix.specs.lint_base.declared.settings.LinterSettings.{LinterSettings};
ghost use Rattle.law_next_fix.specs.lint_pass.Laws.{IsRead};
ghost use Rattle.law_next_fix.specs.fix_choice.Fits.{ListedCanBeTried};
ghost use Rattle.fix_class.specs.Known.{AreKnown};
ghost use Rattle.fix_class.specs.statement_place.Statements.{number_behind};
ghost use Rattle.fix_text.specs.Others as spec;
ghost use Rattle.fix_text.specs.Others.{IsNumbered};
ghost use Rattle.law_next_fix.specs.squawk_linter.Answers.{reports};

use crate::choose::made_if;
use fix_class::{Cursor, FixClasses, NoMemory, Parse, TextRange};
use law_next_fix::laws::fitting_fixes_step;
use law_next_fix::{Linter, is_listed};
use other_fix::{Edit, Fix, LinterSettings, OtherFix, Violation};
use std::alloc::Global;

/// A report and the statement that it begins in, by their numbers.
#[derive(Clone, Copy)]
pub(crate) struct Numbered {
    /// The number of the report.
    pub(crate) report: usize,
    /// The number of the statement.
    pub(crate) statement: usize,
}

// A range, if it has any byte.
fn some_bytes(range: TextRange) -> Option<TextRange>
    ensures { result ≡ spec.some_bytes range }
{
    if range.start().raw() == range.end().raw() {
        None
    } else {
        Some(range)
    }
}

// What the first of some edits replaces.
fn first_replaced(edits: &[Edit]) -> Option<TextRange>
    ensures { result ≡ spec.first_replaced edits.now }
{
    match edits.first() {
        Some(edit) => some_bytes(edit.text_range),
        None => None,
    }
}

// What the first edit of a fix replaces, if it replaces any byte.
fn replaced_by(fix: &Option<Fix>) -> Option<TextRange>
    ensures { result ≡ spec.replaced_by fix.now }
{
    match fix {
        Some(fix) => first_replaced(fix.edits.as_slice()),
        None => None,
    }
}

fn is_same_range(a: Option<TextRange>, b: Option<TextRange>) -> bool
    ensures { result ≡ spec.is_same_range a b }
{
    match (a, b) {
        (Some(a), Some(b)) => {
            a.start().raw() == b.start().raw() && a.end().raw() == b.end().raw()
        }
        _ => false,
    }
}

// Whether the fixes of two reports replace the same bytes.
fn is_same_part(u: &Violation, v: &Violation) -> bool
    ensures { result ≡ spec.is_same_part u.now v.now }
{
    is_same_range(replaced_by(&u.fix), replaced_by(&v.fix))
}

// Whether a report is of a listed rule and its fix replaces bytes.
fn replaces(v: &Violation) -> bool
    ensures { result ≡ spec.replaces v.now }
{
    is_listed(v.code) && replaced_by(&v.fix).is_some()
}

// Whether the fix of a report, whose statement has this number, is allowed, of a listed rule, and fits.
fn is_made(
    alloc: Global,
    wide: bool,
    classes: &FixClasses,
    file: &Parse<'_>,
    u: &Violation,
    number: usize,
) -> Result<bool, NoMemory>
    requires short { length file.now.text < 2 ^ 32 }
    requires tried { ListedCanBeTried file.now.text u.now }
    requires place { number ≡ number_behind file.now u.now.text_range.start }
    ensures { (settings : LinterSettings) → AreKnown settings file.now classes.now → IfOk result (λ is. is ≡ spec.is_made wide settings file.now u.now) }
{
    let made = made_if(alloc, wide, classes, file, u, number)?;
    Ok(made.is_some())
}

// Whether the fix of a report, whose statement has this number, is offered.
fn is_offered(classes: &FixClasses, file: &Parse<'_>, v: &Violation, number: usize) -> bool
    requires { number ≡ number_behind file.now v.now.text_range.start }
    ensures { (settings : LinterSettings) → AreKnown settings file.now classes.now → result ≡ spec.is_offered settings file.now v.now }
{
    classes.class_of(file, v, number).is_some()
}

// Whether a report has a fix that is offered, and a fix that is made, of an earlier report, replaces the same bytes. Their statements have
// these numbers.
fn is_beside(
    alloc: Global,
    wide: bool,
    classes: &FixClasses,
    file: &Parse<'_>,
    u: &Violation,
    v: &Violation,
    first: usize,
    second: usize,
) -> Result<bool, NoMemory>
    requires short { length file.now.text < 2 ^ 32 }
    requires tried { ListedCanBeTried file.now.text u.now }
    requires first { first ≡ number_behind file.now u.now.text_range.start }
    requires second { second ≡ number_behind file.now v.now.text_range.start }
    ensures { (settings : LinterSettings) → AreKnown settings file.now classes.now → IfOk result (λ is. is ≡ spec.is_beside wide settings file.now u.now v.now) }
{
    if !is_same_part(u, v) || !is_offered(classes, file, v, second) {
        return Ok(false);
    }
    is_made(alloc, wide, classes, file, u, first)
}

// The fix of a report, whose statement has this number, if it is such a one beside this earlier report.
fn other_by(
    alloc: Global,
    wide: bool,
    classes: &FixClasses,
    file: &Parse<'_>,
    reports: &[Violation],
    last: Numbered,
    v: &Violation,
    number: usize,
) -> Result<Option<OtherFix>, NoMemory>
    requires short { length file.now.text < 2 ^ 32 }
    requires tried { All (ListedCanBeTried file.now.text) reports.now }
    requires last { IsNumbered file.now reports.now last }
    requires place { number ≡ number_behind file.now v.now.text_range.start }
    ensures { (settings : LinterSettings) → AreKnown settings file.now classes.now → IfOk result (λ other. other ≡ spec.other_by wide settings file.now (slice_get reports.now last.report) v.now) }
{
    if last.report >= reports.len() {
        return Ok(None);
    }
    let u = &reports[last.report];
    if !is_beside(alloc, wide, classes, file, u, v, last.statement, number)? {
        return Ok(None);
    }
    Ok(Some(OtherFix {
        at: v.text_range.start(),
        rule: v.code,
        first: u.code,
    }))
}

// Adds a fix, if there is one.
fn keep(others: &mut Vec<OtherFix>, other: Option<OtherFix>) -> Result<(), NoMemory>
    ensures { OnOk result (others.new.items ≡ others.old.items ++ spec.with_other other []) }
{
    if let Some(other) = other {
        others.push(other)?;
    }
    Ok(())
}

// The numbers of this report, if it is of a listed rule and its fix replaces bytes, or else those of the last one before it.
fn last_replacing(v: &Violation, here: Numbered, last: Numbered) -> Numbered
    ensures { result ≡ (if spec.replaces v.now then here else last) }
{
    if replaces(v) { here } else { last }
}

// Those of these reports.
fn others_of(
    alloc: Global,
    wide: bool,
    settings: &LinterSettings,
    file: &Parse<'_>,
    reports: &[Violation],
) -> Result<Vec<OtherFix>, NoMemory>
    requires short { length file.now.text < 2 ^ 32 }
    requires tried { All (ListedCanBeTried file.now.text) reports.now }
    ensures { IfOk result (λ others. others.items ≡ spec.others_of wide settings.now file.now reports.now) }
{
    let classes = FixClasses::new(alloc, file, settings)?;
    let mut others = Vec::new(alloc);
    let mut cursor = Cursor::new();
    let mut last = Numbered {
        report: reports.len(),
        statement: 0,
    };
    for i in 0..reports.len() {
        let v = &reports[i];
        let number = cursor.number_behind(file, v.text_range.start());
        let other = other_by(alloc, wide, &classes, file, reports, last, v, number)?;
        keep(&mut others, other)?;
        let here = Numbered {
            report: i,
            statement: number,
        };
        last = last_replacing(v, here, last);
    }
    Ok(others)
}

// A tree was read from its text, which is UTF-8.
fn is_read(file: &Parse<'_>)
    ensures { IsRead file.now }
{
    let _text = file.text();
}

/// Those of the reports of a tree: their places are between characters of the text. The linter stays as it is. The error comes when memory
/// runs out.
pub(crate) fn others_in(
    linter: &mut Linter,
    alloc: Global,
    wide: bool,
    file: &Parse<'_>,
) -> Result<Vec<OtherFix>, NoMemory>
    ensures others { IfOk result (λ others. others.items ≡ spec.others_of wide linter.old.settings file.now (reports file.now linter.old.rules linter.old.settings)) }
    ensures placed { IfOk result (λ others. All (λ other. IsCharBoundary file.now.text other.at) others.items) }
    ensures same { OnOk result (linter.new ≡ linter.old) }
{
    fitting_fixes_step();
    is_read(file);
    let assumed = linter.settings.assume_in_transaction;
    let reports = linter.lint(alloc, file)?;
    linter.settings.assume_in_transaction = assumed;
    others_of(alloc, wide, &linter.settings, file, reports.as_slice())
}
