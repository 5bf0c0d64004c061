//! What is reported of a text.
ghost use Rattle.std.specs.Prelude.{◌≡◌, ◌<◌, ℕ, All, IfOk};
ghost use Rattle.fix_class.specs.Known.{AreKnown};
ghost use Rattle.hazard_ignore.specs.Covered.{AreIgnoresOf};
ghost use Rattle.squawk_linter.specs.lint_base.declared.settings.LinterSettings.{LinterSettings};
ghost use Rattle.squawk_linter.specs.ByStart.{by_key};
ghost use Rattle.squawk_linter.specs.sql_tree.Statement.{IsTree};
ghost use Rattle.text_reports.specs.Reports as spec;
ghost use Rattle.text_reports.specs.Reports.{SameButFlag};
ghost use Rattle.text_reports.specs.Placed.{IsReportPlaced};

use crate::convert::{push_by_hazards, push_by_rules};
use fix_class::{FixClasses, Report};
use hazard_find::{Finding, HazardSet, find};
use hazard_ignore::{HazardIgnores, without_hazard_names};
use squawk_linter::{Linter, NoMemory, Parse, Rule, RuleSet, Violation};
use std::alloc::Global;

/// A linter, and the hazards that are looked for beside its rules.
#[derive(Debug, Drop)]
pub struct TextLinter {
    /// The linter, with the settings of both.
    pub linter: Linter,
    /// The hazards that are enabled.
    pub hazards: HazardSet,
}

// The findings that no ignore comment covers.
fn uncovered(
    alloc: Global,
    file: &Parse<'_>,
    ignores: &HazardIgnores,
    found: Vec<Finding>,
) -> Result<Vec<Finding>, NoMemory>
    requires { AreIgnoresOf ignores.now file.now }
    ensures { IfOk result (λ left. left.items ≡ spec.uncovered file.now found.items) }
{
    let mut left = Vec::new(alloc);
    for finding in found {
        if !ignores.covers(&finding) {
            left.push(finding)?;
        }
    }
    Ok(left)
}

// The reports of names of hazards that cover nothing.
#[tactic(auto, unfolding(crate::specs::Reports::unused))]
fn unused(
    alloc: Global,
    file: &Parse<'_>,
    rules: &RuleSet,
    hazards: &HazardSet,
    ignores: &HazardIgnores,
    found: &[Finding],
) -> Result<Vec<Violation>, NoMemory>
    requires { AreIgnoresOf ignores.now file.now }
    ensures { IfOk result (λ reports. reports.items ≡ spec.unused file.now rules.now hazards.now found.now) }
{
    if !rules.contains(Rule::UnusedIgnore) {
        return Ok(Vec::new(alloc));
    }
    ignores.unused(alloc, found, hazards)
}

// Some reports in the order of their starts, equal starts as they were.
fn by_start(mut reports: Vec<Report>) -> Result<Vec<Report>, NoMemory>
    ensures { IfOk result (λ sorted. (n : ℕ) → All (λ v. spec.start_of v < n) reports.items → sorted.items ≡ by_key spec.start_of n reports.items) }
{
    reports.sort_by_key(|report| report.text_range.start().raw())?;
    Ok(reports)
}

// What hazards a text has, and names of hazards that cover nothing, after the reports of its rules.
fn with_hazards(
    alloc: Global,
    file: &Parse<'_>,
    rules: &RuleSet,
    hazards: &HazardSet,
    classes: &FixClasses,
    reports: Vec<Violation>,
    found: Vec<Finding>,
) -> Result<Vec<Report>, NoMemory>
    ensures { IfOk result (λ list. (settings : LinterSettings) → AreKnown settings file.now classes.now
        → list.items ≡ spec.with_hazards settings file.now rules.now hazards.now reports.items found.items) }
{
    let ignores = HazardIgnores::new(alloc, file)?;
    let unused = unused(alloc, file, rules, hazards, &ignores, found.as_slice())?;
    let left = uncovered(alloc, file, &ignores, found)?;
    let kept = without_hazard_names(alloc, reports)?;
    let mut list = Vec::new(alloc);
    push_by_rules(&mut list, file, classes, kept)?;
    push_by_rules(&mut list, file, classes, unused)?;
    push_by_hazards(&mut list, file, left)?;
    Ok(list)
}

// All that is reported of a text. The flag of the linter may be cleared.
fn reports_of(
    alloc: Global,
    linter: &mut TextLinter,
    file: &Parse<'_>,
    text: &str,
) -> Result<Vec<Report>, NoMemory>
    requires text { text.now ≡ file.now.text }
    requires tree { IsTree file.now }
    ensures reports { IfOk result (λ list. list.items ≡ spec.all_reports file.now linter.old.linter.rules linter.old.hazards linter.old.linter.settings) }
    ensures placed { IfOk result (λ list. All (IsReportPlaced file.now.text) list.items) }
    ensures rules { linter.new.linter.rules ≡ linter.old.linter.rules }
    ensures hazards { linter.new.hazards ≡ linter.old.hazards }
    ensures settings { SameButFlag linter.old.linter.settings linter.new.linter.settings }
{
    let found = find(alloc, file, &linter.linter.settings, &linter.hazards)?;
    let classes = FixClasses::new(alloc, file, &linter.linter.settings)?;
    let reports = linter.linter.lint(alloc, file)?;
    let rules = &linter.linter.rules;
    let hazards = &linter.hazards;
    let list = with_hazards(alloc, file, rules, hazards, &classes, reports, found)?;
    let sorted = by_start(list)?;
    Ok(sorted)
}

/// All that is reported of a text: by the rules of the linter and by hazards, in one list by place. The linter stays as it was. The error
/// comes when memory runs out.
pub fn find_reports(
    alloc: Global,
    linter: &mut TextLinter,
    file: &Parse<'_>,
) -> Result<Vec<Report>, NoMemory>
    ensures reports { IfOk result (λ list. list.items ≡ spec.all_reports file.now linter.old.linter.rules linter.old.hazards linter.old.linter.settings) }
    ensures placed { IfOk result (λ list. All (IsReportPlaced file.now.text) list.items) }
    ensures same { linter.new ≡ linter.old }
{
    let assumed = linter.linter.settings.assume_in_transaction;
    let found = reports_of(alloc, linter, file, file.text());
    linter.linter.settings.assume_in_transaction = assumed;
    found
}
