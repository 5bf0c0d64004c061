//! The text of an object.
ghost use Rattle.std.specs.Prelude.{◌≡◌, ◌++◌, OnOk};
ghost use Rattle.std.specs.Str.{IsCharBoundary};
ghost use Rattle.serde_json.specs.Written.{compact_text};
ghost use Rattle.json_value.specs.source_file.File.{IsRangeIn};
ghost use Rattle.json_value.specs.source_file.Refusals as refusals;
ghost use Rattle.report_json.specs.Objects.{refusal_object, report_object};

use crate::objects::{refusal_value, report_value};
use json_value::{Refusal, SourceFile, push_value};
use lint_report::{NoMemory, Report};
use std::alloc::Global;

/// Adds a report as an object. The error comes when memory runs out.
pub fn push_report(
    to: &mut Vec<u8>,
    alloc: Global,
    file: &SourceFile<'_>,
    report: &Report,
) -> Result<(), NoMemory>
    requires { IsRangeIn file.now.text report.now.text_range }
    ensures { OnOk result (to.new.items ≡ to.old.items ++ compact_text (report_object file.now report.now)) }
{
    let value = report_value(alloc, file, report)?;
    push_value(to, alloc, &value)
}

/// Adds why a file could not be linted, as an object. The error comes when memory runs out.
pub fn push_refusal(
    to: &mut Vec<u8>,
    alloc: Global,
    file: &SourceFile<'_>,
    refusal: &Refusal,
) -> Result<(), NoMemory>
    requires { IsCharBoundary file.now.text (refusals.place_of refusal.now) }
    ensures { OnOk result (to.new.items ≡ to.old.items ++ compact_text (refusal_object file.now refusal.now)) }
{
    let value = refusal_value(alloc, file, refusal)?;
    push_value(to, alloc, &value)
}
