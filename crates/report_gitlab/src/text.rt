//! The text of an issue.
ghost use Rattle.std.specs.Prelude.{◌≡◌, ◌++◌, OnOk};
ghost use Rattle.std.specs.Str.{IsCharBoundary};
ghost use Rattle.serde_json.specs.Written.{compact_text};
ghost use Rattle.json_value.specs.source_file.File.{IsRangeIn};
ghost use Rattle.json_value.specs.source_file.Refusals.{place_of};
ghost use Rattle.report_gitlab.specs.Issues.{refusal_issue, report_issue};

use crate::issues::{refusal_issue, report_issue};
use json_value::{Refusal, SourceFile, push_value};
use lint_report::{NoMemory, Report};
use std::alloc::Global;

/// Adds a report as an issue. The error comes when memory runs out.
pub fn push_report(
    to: &mut Vec<u8>,
    alloc: Global,
    file: &SourceFile<'_>,
    report: &Report,
) -> Result<(), NoMemory>
    requires { IsRangeIn file.now.text report.now.statement }
    ensures { OnOk result (to.new.items ≡ to.old.items ++ compact_text (report_issue file.now report.now)) }
{
    let value = report_issue(alloc, file, report)?;
    push_value(to, alloc, &value)
}

/// Adds why a file could not be linted, as an issue. The error comes when memory runs out.
pub fn push_refusal(
    to: &mut Vec<u8>,
    alloc: Global,
    file: &SourceFile<'_>,
    refusal: &Refusal,
) -> Result<(), NoMemory>
    requires { IsCharBoundary file.now.text (place_of refusal.now) }
    ensures { OnOk result (to.new.items ≡ to.old.items ++ compact_text (refusal_issue file.now refusal.now)) }
{
    let value = refusal_issue(alloc, file, refusal)?;
    push_value(to, alloc, &value)
}
