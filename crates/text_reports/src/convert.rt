//! What is found, as reports.
ghost use Rattle.std.specs.Prelude.{◌≡◌, ◌++◌, OnOk, map};
ghost use Rattle.fix_class.specs.Known.{AreKnown};
ghost use Rattle.squawk_linter.specs.lint_base.declared.settings.LinterSettings.{LinterSettings};
ghost use Rattle.fix_class.specs.statement_place.Statements.{IsCursor};
ghost use Rattle.text_reports.specs.Reports as spec;

use fix_class::{Code, Cursor, FixClass, FixClasses, Report, ReportFix};
use hazard_find::Finding;
use squawk_linter::{Fix, NoMemory, Parse, Violation};

fn offered(class: Option<FixClass>, fix: Option<Fix>) -> Option<ReportFix>
    ensures { result ≡ spec.offered class fix }
{
    match class {
        None => None,
        Some(class) => match fix {
            None => None,
            Some(fix) => Some(ReportFix { class, fix }),
        },
    }
}

#[tactic(auto, unfolding(crate::specs::Reports::by_rule))]
fn by_rule(file: &Parse<'_>, classes: &FixClasses, cursor: &mut Cursor, v: Violation) -> Report
    requires { IsCursor file.now cursor.old }
    ensures cursor { IsCursor file.now cursor.new }
    ensures value { (settings : LinterSettings) → AreKnown settings file.now classes.now → result ≡ spec.by_rule settings file.now v }
{
    let number = cursor.number_behind(file, v.text_range.start());
    let class = classes.class_of(file, &v, number);
    let statement = cursor.statement_of(file, v.text_range);
    Report {
        code: Code::Rule(v.code),
        message: v.message,
        text_range: v.text_range,
        statement,
        note: v.note,
        help: v.help,
        fix: offered(class, v.fix),
    }
}

#[tactic(auto, unfolding(crate::specs::Reports::by_hazard))]
fn by_hazard(file: &Parse<'_>, cursor: &mut Cursor, f: Finding) -> Report
    requires { IsCursor file.now cursor.old }
    ensures cursor { IsCursor file.now cursor.new }
    ensures value { result ≡ spec.by_hazard file.now f }
{
    let statement = cursor.statement_of(file, f.range);
    Report {
        code: Code::Hazard(f.hazard),
        message: f.message,
        text_range: f.range,
        statement,
        note: f.note,
        help: f.help,
        fix: None,
    }
}

/// Adds reports of the linter.
pub(crate) fn push_by_rules(
    list: &mut Vec<Report>,
    file: &Parse<'_>,
    classes: &FixClasses,
    reports: Vec<Violation>,
) -> Result<(), NoMemory>
    ensures { OnOk result ((settings : LinterSettings) → AreKnown settings file.now classes.now → list.new.items ≡ list.old.items ++ map (spec.by_rule settings file.now) reports.items) }
{
    let mut cursor = Cursor::new();
    for v in reports {
        list.push(by_rule(file, classes, &mut cursor, v))?;
    }
    Ok(())
}

/// Adds findings.
pub(crate) fn push_by_hazards(
    list: &mut Vec<Report>,
    file: &Parse<'_>,
    findings: Vec<Finding>,
) -> Result<(), NoMemory>
    ensures { OnOk result (list.new.items ≡ list.old.items ++ map (spec.by_hazard file.now) findings.items) }
{
    let mut cursor = Cursor::new();
    for f in findings {
        list.push(by_hazard(file, &mut cursor, f))?;
    }
    Ok(())
}
