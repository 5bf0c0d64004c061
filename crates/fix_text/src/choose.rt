//! The next fix that is allowed.
ghost use Rattle.std.specs.Prelude.{◌≡◌, ◌<◌, ◌^◌, All, IfOk, length, option_map, string_bytes};
ghost use Rattle.other_fix.specs.lint_base.declared.settings.LinterSettings.{LinterSettings};
ghost use Rattle.law_next_fix.specs.fix_choice.Fits.{ListedCanBeTried, next_text};
ghost use Rattle.fix_class.specs.Known.{AreKnown};
ghost use Rattle.fix_class.specs.statement_place.Statements.{number_behind};
ghost use Rattle.fix_text.specs.Allowed as spec;

use fix_class::{Cursor, FixClass, FixClasses, NoMemory, Parse};
use law_next_fix::{is_listed, made_by};
use other_fix::{LinterSettings, Violation};
use std::alloc::Global;

fn is_allowed_class(wide: bool, class: Option<FixClass>) -> bool
    ensures { result ≡ spec.is_allowed_class wide class }
{
    match class {
        None | Some(FixClass::Template) => false,
        Some(FixClass::Safe) => true,
        Some(FixClass::Unsafe) => wide,
    }
}

// Whether the fix of a report, whose statement has this number, is allowed.
fn is_allowed(
    wide: bool,
    classes: &FixClasses,
    file: &Parse<'_>,
    report: &Violation,
    number: usize,
) -> bool
    requires { number ≡ number_behind file.now report.now.text_range.start }
    ensures { (settings : LinterSettings) → AreKnown settings file.now classes.now → result ≡ spec.is_allowed wide settings file.now report.now }
{
    is_allowed_class(wide, classes.class_of(file, report, number))
}

/// The text with the fix of a report made, whose statement has this number, if it is of a listed rule, allowed, and fits. The class of
/// another rule's fix is not looked for.
pub(crate) fn made_if(
    alloc: Global,
    wide: bool,
    classes: &FixClasses,
    file: &Parse<'_>,
    report: &Violation,
    number: usize,
) -> Result<Option<String>, NoMemory>
    requires short { length file.now.text < 2 ^ 32 }
    requires tried { ListedCanBeTried file.now.text report.now }
    requires place { number ≡ number_behind file.now report.now.text_range.start }
    ensures { (settings : LinterSettings) → AreKnown settings file.now classes.now
        → IfOk result (λ made. option_map string_bytes made ≡ spec.made_if (spec.is_allowed wide settings file.now report.now) file.now.text report.now) }
{
    if !is_listed(report.code) || !is_allowed(wide, classes, file, report, number) {
        return Ok(None);
    }
    match &report.fix {
        Some(fix) => made_by(alloc, file.text(), fix),
        None => Ok(None),
    }
}

/// The text with the first of these fixes made that is allowed, of a listed rule, and fits. The error comes when memory runs out.
#[tactic(auto, using(crate::proofs::Choosing::skipped, crate::proofs::Choosing::taken))]
pub(crate) fn next_allowed(
    alloc: Global,
    wide: bool,
    settings: &LinterSettings,
    file: &Parse<'_>,
    reports: &[Violation],
) -> Result<Option<String>, NoMemory>
    requires short { length file.now.text < 2 ^ 32 }
    requires tried { All (ListedCanBeTried file.now.text) reports.now }
    ensures { IfOk result (λ next. option_map string_bytes next
        ≡ next_text file.now.text (spec.allowed wide settings.now file.now reports.now)) }
{
    let classes = FixClasses::new(alloc, file, settings)?;
    let mut cursor = Cursor::new();
    for report in reports {
        let number = cursor.number_behind(file, report.text_range.start());
        let made = made_if(alloc, wide, &classes, file, report, number)?;
        if made.is_some() {
            return Ok(made);
        }
    }
    Ok(None)
}
