//! What came of one file.
ghost use Rattle.std.specs.Prelude.{◌≡◌, ◌++◌, All, OnOk};
ghost use Rattle.std.specs.Str.{IsCharBoundary};
ghost use Rattle.checked_file.specs.Sound.{IsIn, IsPartialIn, IsReportIn, IsSound};
ghost use Rattle.checked_file.specs.source_file.Refusals.{place_of};
ghost use Rattle.check_print.specs.Printed.{follows_refusals, printed_answer, printed_file, printed_partial, printed_refusals, printed_reports, separated, separated_refusal};

use crate::finding::{push_refusal, push_report, push_separator};
use crate::style::Style;
use checked_file::{Answer, Checked, NoMemory, Partial, Refusal, Report, SourceFile, readable};
use std::alloc::Global;

// Adds a report with what is before it.
#[tactic(auto, using(std::proofs::lemmas::List::append_assoc))]
fn push_separated(
    to: &mut Vec<u8>,
    alloc: Global,
    style: Style,
    follows: bool,
    file: &SourceFile<'_>,
    report: &Report,
) -> Result<(), NoMemory>
    requires { IsReportIn file.now.text report.now }
    ensures { OnOk result (to.new.items ≡ to.old.items ++ separated style follows file.now report.now) }
{
    push_separator(to, style.format, follows)?;
    push_report(to, alloc, style, file, report)
}

// Adds the reports of a file.
fn push_reports(
    to: &mut Vec<u8>,
    alloc: Global,
    style: Style,
    follows: bool,
    file: &SourceFile<'_>,
    reports: &[Report],
) -> Result<(), NoMemory>
    requires { All (IsReportIn file.now.text) reports.now }
    ensures { OnOk result (to.new.items ≡ to.old.items ++ printed_reports style follows file.now reports.now) }
{
    let mut behind = follows;
    for report in reports {
        push_separated(to, alloc, style, behind, file, report)?;
        behind = true;
    }
    Ok(())
}

// Adds a refusal with what is before it.
#[tactic(auto, using(std::proofs::lemmas::List::append_assoc))]
fn push_separated_refusal(
    to: &mut Vec<u8>,
    alloc: Global,
    style: Style,
    follows: bool,
    file: &SourceFile<'_>,
    refusal: &Refusal,
) -> Result<(), NoMemory>
    requires { IsCharBoundary file.now.text (place_of refusal.now) }
    ensures { OnOk result (to.new.items ≡ to.old.items ++ separated_refusal style follows file.now refusal.now) }
{
    push_separator(to, style.format, follows)?;
    push_refusal(to, alloc, style, file, refusal)
}

// Adds the refusals of statements.
fn push_refusals(
    to: &mut Vec<u8>,
    alloc: Global,
    style: Style,
    follows: bool,
    file: &SourceFile<'_>,
    refusals: &[Refusal],
) -> Result<(), NoMemory>
    requires { All (λ r. IsCharBoundary file.now.text (place_of r)) refusals.now }
    ensures { OnOk result (to.new.items ≡ to.old.items ++ printed_refusals style follows file.now refusals.now) }
{
    let mut behind = follows;
    for refusal in refusals {
        push_separated_refusal(to, alloc, style, behind, file, refusal)?;
        behind = true;
    }
    Ok(())
}

// Whether something was before, or is among these.
fn follows_refusals(follows: bool, refusals: &[Refusal]) -> bool
    ensures { result ≡ follows_refusals follows refusals.now }
{
    follows || !refusals.is_empty()
}

// Adds the refusals of the statements of a file that could not be parsed, and the reports of the others.
#[tactic(auto, using(std::proofs::lemmas::List::append_assoc))]
fn push_partial(
    to: &mut Vec<u8>,
    alloc: Global,
    style: Style,
    follows: bool,
    file: &SourceFile<'_>,
    partial: &Partial,
) -> Result<(), NoMemory>
    requires { IsPartialIn file.now.text partial.now }
    ensures { OnOk result (to.new.items ≡ to.old.items ++ printed_partial style follows file.now partial.now) }
{
    let refusals = partial.faults.as_slice();
    let read = SourceFile::new(alloc, file.name(), readable(partial.bytes.as_slice()))?;
    push_refusals(to, alloc, style, follows, &read, refusals)?;
    let behind = follows_refusals(follows, refusals);
    push_reports(to, alloc, style, behind, file, partial.reports.as_slice())
}

// Adds an answer for a file.
#[tactic(auto, using(std::proofs::lemmas::List::append_assoc))]
fn push_answer(
    to: &mut Vec<u8>,
    alloc: Global,
    style: Style,
    follows: bool,
    file: &SourceFile<'_>,
    answer: &Answer,
) -> Result<(), NoMemory>
    requires { IsIn file.now.text answer.now }
    ensures { OnOk result (to.new.items ≡ to.old.items ++ printed_answer style follows file.now answer.now) }
{
    match answer {
        Answer::Reports(reports) => {
            push_reports(to, alloc, style, follows, file, reports.as_slice())
        }
        Answer::Partial(partial) => push_partial(to, alloc, style, follows, file, partial),
        Answer::Refused(refusal) => {
            push_separated_refusal(to, alloc, style, follows, file, refusal)
        }
    }
}

/// Adds what came of a file. The error comes when memory runs out.
#[tactic(auto, unfolding(crate::specs::Printed::printed_file))]
pub(crate) fn push_file(
    to: &mut Vec<u8>,
    alloc: Global,
    style: Style,
    follows: bool,
    checked: &Checked,
) -> Result<(), NoMemory>
    requires { IsSound checked.now }
    ensures { OnOk result (to.new.items ≡ to.old.items ++ printed_file style follows checked.now) }
{
    let text = readable(checked.bytes.as_slice());
    let file = SourceFile::new(alloc, checked.name.as_str(), text)?;
    push_answer(to, alloc, style, follows, &file, &checked.answer)
}
