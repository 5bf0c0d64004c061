//! Reports as diagnostics.
ghost use Rattle.std.specs.Prelude.{◌≡◌, ◌<◌, ◌^◌, All, IfSome, length, map, option_map, IfOk};
ghost use Rattle.diag_report.specs.Diagnostics.{diagnostic_of, diagnostics_of, edit_of, fix_of};
ghost use Rattle.diag_report.specs.Places.{EditIn, EditsIn, ReportIn};

use diag_json::{DiagEdit, DiagFix, Diagnostic, Edit, Fix, NoMemory, PosIndex, Violation};
use std::alloc::Global;

fn edit_of(index: &PosIndex<'_>, edit: Edit) -> DiagEdit
    requires { EditIn index.now edit }
    ensures { result ≡ edit_of index.now edit }
{
    DiagEdit {
        start: index.pos(edit.text_range.start()),
        end: index.pos(edit.text_range.end()),
        text: edit.text,
    }
}

fn edits_of(
    alloc: Global,
    index: &PosIndex<'_>,
    edits: Vec<Edit>,
) -> Result<Vec<DiagEdit>, NoMemory>
    requires { All (EditIn index.now) edits.items }
    ensures { IfOk result (λ made. made.items ≡ map (edit_of index.now) edits.items) }
{
    let mut made = Vec::with_capacity(alloc, edits.len())?;
    for edit in edits {
        made.push(edit_of(index, edit))?;
    }
    Ok(made)
}

fn fix_of(alloc: Global, index: &PosIndex<'_>, fix: Fix) -> Result<DiagFix, NoMemory>
    requires { EditsIn index.now fix }
    ensures { IfOk result (λ made. made ≡ fix_of index.now fix) }
{
    Ok(DiagFix {
        title: fix.title,
        edits: edits_of(alloc, index, fix.edits)?,
    })
}

fn fix_if(
    alloc: Global,
    index: &PosIndex<'_>,
    fix: Option<Fix>,
) -> Result<Option<DiagFix>, NoMemory>
    requires { IfSome fix (EditsIn index.now) }
    ensures { IfOk result (λ made. made ≡ option_map (fix_of index.now) fix) }
{
    match fix {
        Some(fix) => Ok(Some(fix_of(alloc, index, fix)?)),
        None => Ok(None),
    }
}

fn diagnostic_of(
    alloc: Global,
    index: &PosIndex<'_>,
    report: Violation,
) -> Result<Diagnostic, NoMemory>
    requires { ReportIn index.now report }
    ensures { IfOk result (λ made. made ≡ diagnostic_of index.now report) }
{
    Ok(Diagnostic {
        start: index.pos(report.text_range.start()),
        end: index.pos(report.text_range.end()),
        rule: report.code,
        message: report.message,
        note: report.note,
        help: report.help,
        fix: fix_if(alloc, index, report.fix)?,
    })
}

/// The diagnostics of some reports of a text, in their order. The error comes when memory runs out.
pub fn diagnostics_of(
    alloc: Global,
    text: &str,
    reports: Vec<Violation>,
) -> Result<Vec<Diagnostic>, NoMemory>
    requires short { length text.now < 2 ^ 32 }
    requires places { All (ReportIn text.now) reports.items }
    ensures { IfOk result (λ made. made.items ≡ diagnostics_of text.now reports.items) }
{
    let index = PosIndex::new(alloc, text)?;
    let mut made = Vec::with_capacity(alloc, reports.len())?;
    for report in reports {
        made.push(diagnostic_of(alloc, &index, report)?)?;
    }
    Ok(made)
}
