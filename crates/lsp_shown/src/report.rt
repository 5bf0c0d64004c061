//! Reports at positions.
ghost use Rattle.std.specs.Prelude.{◌≡◌, ◌<◌, ◌^◌, All, IfSome, length, map, IfOk};
ghost use Rattle.lsp_shown.specs.Places.{EditIn, EditsIn, FixIn, ReportIn};
ghost use Rattle.lsp_shown.specs.Shown as spec;

use crate::ignore::{Lines, ignore_if};
use lsp_session::{
    Change, Edit, Fix, FixClass, NoMemory, Pos, PosIndex, Remedy, Report, ReportFix,
};
use std::alloc::Global;

fn change_of(index: &PosIndex<'_>, edit: Edit) -> Change
    requires { EditIn index.now edit }
    ensures { result ≡ spec.change_of index.now edit }
{
    Change {
        start: index.pos(edit.text_range.start()),
        end: index.pos(edit.text_range.end()),
        text: edit.text,
    }
}

fn changes_of(
    alloc: Global,
    index: &PosIndex<'_>,
    edits: Vec<Edit>,
) -> Result<Vec<Change>, NoMemory>
    requires { All (EditIn index.now) edits.items }
    ensures { IfOk result (λ made. made.items ≡ map (spec.change_of index.now) edits.items) }
{
    let mut made = Vec::with_capacity(alloc, edits.len())?;
    for edit in edits {
        made.push(change_of(index, edit))?;
    }
    Ok(made)
}

fn remedy_of(
    alloc: Global,
    index: &PosIndex<'_>,
    is_preferred: bool,
    fix: Fix,
) -> Result<Remedy, NoMemory>
    requires { EditsIn index.now fix }
    ensures { IfOk result (λ made. made ≡ spec.remedy_of index.now is_preferred fix) }
{
    Ok(Remedy {
        title: fix.title,
        is_preferred,
        changes: changes_of(alloc, index, fix.edits)?,
    })
}

// A fix of a class, where it is offered.
fn remedy_by(
    alloc: Global,
    index: &PosIndex<'_>,
    class: FixClass,
    fix: Fix,
) -> Result<Option<Remedy>, NoMemory>
    requires { EditsIn index.now fix }
    ensures { IfOk result (λ made. made ≡ spec.remedy_by index.now class fix) }
{
    match class {
        FixClass::Safe => Ok(Some(remedy_of(alloc, index, true, fix)?)),
        FixClass::Unsafe => Ok(Some(remedy_of(alloc, index, false, fix)?)),
        FixClass::Template => Ok(None),
    }
}

fn remedy_if(
    alloc: Global,
    index: &PosIndex<'_>,
    fix: Option<ReportFix>,
) -> Result<Option<Remedy>, NoMemory>
    requires { IfSome fix (FixIn index.now) }
    ensures { IfOk result (λ made. made ≡ spec.remedy_if index.now fix) }
{
    match fix {
        Some(fix) => remedy_by(alloc, index, fix.class, fix.fix),
        None => Ok(None),
    }
}

fn report_of(
    alloc: Global,
    index: &PosIndex<'_>,
    tokens: &[Lines],
    notes: &[Pos],
    report: lsp_session::lint_report::Report,
) -> Result<Report, NoMemory>
    requires { ReportIn index.now report }
    ensures { IfOk result (λ made. made ≡ spec.report_of index.now tokens.now notes.now report) }
{
    let start = index.pos(report.text_range.start());
    Ok(Report {
        start,
        end: index.pos(report.text_range.end()),
        code: Some(report.code),
        message: report.message,
        note: report.note,
        help: report.help,
        fix: remedy_if(alloc, index, report.fix)?,
        ignore: ignore_if(alloc, tokens, notes, report.code, start.line)?,
    })
}

/// What is shown of some reports of a text, in their order. `tokens` are those tokens of the text that go over several lines, so that no
/// comment is put into one, and `notes` the places in its comments to which names can be added. The error comes when memory runs out.
pub fn shown(
    alloc: Global,
    index: &PosIndex<'_>,
    tokens: &[Lines],
    notes: &[Pos],
    reports: Vec<lsp_session::lint_report::Report>,
) -> Result<Vec<Report>, NoMemory>
    requires { All (ReportIn index.now) reports.items }
    ensures { IfOk result (λ made. made.items ≡ spec.shown index.now tokens.now notes.now reports.items) }
{
    let mut made = Vec::with_capacity(alloc, reports.len())?;
    for report in reports {
        made.push(report_of(alloc, index, tokens, notes, report)?)?;
    }
    Ok(made)
}
