//! The text of a result.
ghost use Rattle.std.specs.Prelude.{◌≡◌, ◌++◌, OnOk};
ghost use Rattle.std.specs.Str.{IsCharBoundary};
ghost use Rattle.serde_json.specs.Written.{compact_text};
ghost use Rattle.json_value.specs.source_file.File.{IsRangeIn};
ghost use Rattle.json_value.specs.source_file.Refusals as refusals;
ghost use Rattle.report_sarif.specs.Results.{refusal_result, report_result};

use crate::results::{refusal_result, report_result};
use json_value::{Refusal, SourceFile, push_value};
use lint_report::{NoMemory, Report};
use std::alloc::Global;

/// Adds a report as a result. The error comes when memory runs out.
pub fn push_report(
    to: &mut Vec<u8>,
    alloc: Global,
    file: &SourceFile<'_>,
    report: &Report,
) -> Result<(), NoMemory>
    requires range { IsRangeIn file.now.text report.now.text_range }
    requires statement { IsRangeIn file.now.text report.now.statement }
    ensures { OnOk result (to.new.items ≡ to.old.items ++ compact_text (report_result file.now report.now)) }
{
    let value = report_result(alloc, file, report)?;
    push_value(to, alloc, &value)
}

/// Adds why a file could not be linted, as a result. The error comes when memory runs out.
pub fn push_refusal(
    to: &mut Vec<u8>,
    alloc: Global,
    file: &SourceFile<'_>,
    refusal: &Refusal,
) -> Result<(), NoMemory>
    requires { IsCharBoundary file.now.text (refusals.place_of refusal.now) }
    ensures { OnOk result (to.new.items ≡ to.old.items ++ compact_text (refusal_result file.now refusal.now)) }
{
    let value = refusal_result(alloc, file, refusal)?;
    push_value(to, alloc, &value)
}
