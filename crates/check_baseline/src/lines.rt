//! The text of a baseline.
ghost use Rattle.std.specs.Prelude.{◌≡◌, ◌++◌, All, IfOk, OnOk, [], string_bytes};
ghost use Rattle.std.specs.List.{flat_map};
ghost use Rattle.checked_file.specs.Sound.{IsIn, IsPartialIn, IsReportIn, IsSound};
ghost use Rattle.check_baseline.specs.Written.{answer_lines, file_lines, heading, partial_lines, refusal_line, refusal_mark, report_line, written};

use crate::known::print_of;
use checked_file::{Answer, Checked, NoMemory, Partial, Refusal, Report, push_escaped, readable};
use std::alloc::Global;

/// What comes before the first line.
const HEADING: &str =
    "# Reports that lavkheto lets pass: fingerprint, rule, file. Written by --write-baseline.\n";

// Adds the line of a report.
#[tactic(auto, unfolding(crate::specs::Written::report_line), using(std::proofs::lemmas::List::append_assoc))]
fn push_line(
    to: &mut Vec<u8>,
    alloc: Global,
    name: &str,
    text: &str,
    report: &Report,
) -> Result<(), NoMemory>
    requires { IsReportIn text.now report.now }
    ensures { OnOk result (to.new.items ≡ to.old.items ++ report_line name.now text.now report.now) }
{
    let print = print_of(alloc, name, text, report)?;
    to.extend_from_slice(print.as_bytes())?;
    to.push(b' ')?;
    to.extend_from_slice(report.code.name().as_bytes())?;
    to.push(b' ')?;
    push_escaped(to, name.as_bytes())?;
    to.push(b'\n')?;
    Ok(())
}

// Adds the lines of reports.
fn push_lines(
    to: &mut Vec<u8>,
    alloc: Global,
    name: &str,
    text: &str,
    reports: &[Report],
) -> Result<(), NoMemory>
    requires { All (IsReportIn text.now) reports.now }
    ensures { OnOk result (to.new.items ≡ to.old.items ++ flat_map (report_line name.now text.now) reports.now) }
{
    for report in reports {
        push_line(to, alloc, name, text, report)?;
    }
    Ok(())
}

// Adds what comes before the name of a file of which something could not be linted.
#[tactic(auto, unfolding(crate::specs::Written::refusal_mark))]
fn push_refusal_mark(to: &mut Vec<u8>) -> Result<(), NoMemory>
    ensures { OnOk result (to.new.items ≡ to.old.items ++ refusal_mark) }
{
    to.extend_from_slice(b"# not linted: ")?;
    Ok(())
}

// Adds the comment on a file, or on a statement of it, that could not be linted.
#[tactic(auto, unfolding(crate::specs::Written::refusal_line), using(std::proofs::lemmas::List::append_assoc))]
fn push_refusal(to: &mut Vec<u8>, name: &str, refusal: &Refusal) -> Result<(), NoMemory>
    ensures { OnOk result (to.new.items ≡ to.old.items ++ refusal_line name.now refusal.now) }
{
    push_refusal_mark(to)?;
    push_escaped(to, name.as_bytes())?;
    to.extend_from_slice(b": ")?;
    to.extend_from_slice(refusal.message().as_bytes())?;
    to.push(b'\n')?;
    Ok(())
}

// Adds the comments on statements that could not be parsed.
fn push_refusals(to: &mut Vec<u8>, name: &str, refusals: &[Refusal]) -> Result<(), NoMemory>
    ensures { OnOk result (to.new.items ≡ to.old.items ++ flat_map (refusal_line name.now) refusals.now) }
{
    for refusal in refusals {
        push_refusal(to, name, refusal)?;
    }
    Ok(())
}

// Adds the lines of a file of which some statements could not be parsed.
#[tactic(auto, using(std::proofs::lemmas::List::append_assoc))]
fn push_partial(
    to: &mut Vec<u8>,
    alloc: Global,
    name: &str,
    text: &str,
    partial: &Partial,
) -> Result<(), NoMemory>
    requires { IsPartialIn text.now partial.now }
    ensures { OnOk result (to.new.items ≡ to.old.items ++ partial_lines name.now text.now partial.now) }
{
    push_refusals(to, name, partial.faults.as_slice())?;
    push_lines(to, alloc, name, text, partial.reports.as_slice())
}

// Adds the lines of an answer.
fn push_answer(
    to: &mut Vec<u8>,
    alloc: Global,
    name: &str,
    text: &str,
    answer: &Answer,
) -> Result<(), NoMemory>
    requires { IsIn text.now answer.now }
    ensures { OnOk result (to.new.items ≡ to.old.items ++ answer_lines name.now text.now answer.now) }
{
    match answer {
        Answer::Reports(reports) => push_lines(to, alloc, name, text, reports.as_slice()),
        Answer::Partial(partial) => push_partial(to, alloc, name, text, partial),
        Answer::Refused(refusal) => push_refusal(to, name, refusal),
    }
}

// Adds the lines of a file.
#[tactic(auto, unfolding(crate::specs::Written::file_lines))]
fn push_file(to: &mut Vec<u8>, alloc: Global, file: &Checked) -> Result<(), NoMemory>
    requires { IsSound file.now }
    ensures { OnOk result (to.new.items ≡ to.old.items ++ file_lines file.now) }
{
    let text = readable(file.bytes.as_slice());
    push_answer(to, alloc, file.name.as_str(), text, &file.answer)
}

// Adds the lines of files.
fn push_files(to: &mut Vec<u8>, alloc: Global, files: &[Checked]) -> Result<(), NoMemory>
    requires { All IsSound files.now }
    ensures { OnOk result (to.new.items ≡ to.old.items ++ flat_map file_lines files.now) }
{
    for file in files {
        push_file(to, alloc, file)?;
    }
    Ok(())
}

/// The text of the baseline that knows all reports of some files: a comment, and then for each file a comment on each statement that could
/// not be parsed and a line for each report, or a comment on the file where it could not be linted. The error comes when memory runs out.
pub fn written(alloc: Global, files: &[Checked]) -> Result<Vec<u8>, NoMemory>
    requires { All IsSound files.now }
    ensures { IfOk result (λ text. text.items ≡ written files.now) }
{
    let mut text = Vec::from_slice(alloc, HEADING.as_bytes())?;
    push_files(&mut text, alloc, files)?;
    Ok(text)
}
