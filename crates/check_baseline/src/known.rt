//! Files without the reports that a baseline knows.
ghost use Rattle.std.specs.Prelude.{◌≡◌, All, IfOk, string_bytes};
ghost use Rattle.std.specs.List.{AllZip};
ghost use Rattle.checked_file.specs.Sound.{IsIn, IsPartialIn, IsReportIn, IsSound};
ghost use Rattle.checked_file.specs.source_file.File.{IsRangeIn};
ghost use Rattle.report_gitlab.specs.Issues.{report_fingerprint};
ghost use Rattle.check_baseline.specs.Known.{IsLeft, IsLeftOf, IsPartLeft, is_known, unknown_reports};

use crate::baseline::Baseline;
use checked_file::{Answer, Checked, NoMemory, Partial, Report, readable};
use report_gitlab::report_fingerprint;
use std::alloc::Global;

/// The fingerprint of a report of a file. The error comes when memory runs out.
pub(crate) fn print_of(
    alloc: Global,
    name: &str,
    text: &str,
    report: &Report,
) -> Result<String, NoMemory>
    requires { IsRangeIn text.now report.now.statement }
    ensures { IfOk result (λ print. string_bytes print ≡ report_fingerprint name.now text.now report.now) }
{
    let print = report_fingerprint(alloc, name, text, report)?;
    Ok(print)
}

// Whether a baseline knows a report.
fn is_known(
    alloc: Global,
    baseline: &Baseline,
    name: &str,
    text: &str,
    report: &Report,
) -> Result<bool, NoMemory>
    requires { IsReportIn text.now report.now }
    ensures { IfOk result (λ known. known ≡ is_known baseline.now name.now text.now report.now) }
{
    let print = print_of(alloc, name, text, report)?;
    Ok(baseline.knows(print.as_str()))
}

// The reports of a file that a baseline does not know.
fn unknown_reports(
    alloc: Global,
    baseline: &Baseline,
    name: &str,
    text: &str,
    reports: Vec<Report>,
) -> Result<Vec<Report>, NoMemory>
    requires { All (IsReportIn text.now) reports.items }
    ensures { IfOk result (λ kept. kept.items ≡ unknown_reports baseline.now name.now text.now reports.items) }
{
    let mut kept = Vec::new(alloc);
    for report in reports {
        if !is_known(alloc, baseline, name, text, &report)? {
            kept.push(report)?;
        }
    }
    Ok(kept)
}

// What is left where some statements of a file could not be parsed.
fn part_left(
    alloc: Global,
    baseline: &Baseline,
    name: &str,
    text: &str,
    partial: Partial,
) -> Result<Partial, NoMemory>
    requires { IsPartialIn text.now partial }
    ensures left { IfOk result (IsPartLeft baseline.now name.now text.now partial) }
    ensures placed { IfOk result (IsPartialIn text.now) }
{
    let Partial {
        bytes,
        faults,
        reports,
    } = partial;
    let reports = unknown_reports(alloc, baseline, name, text, reports)?;
    Ok(Partial {
        bytes,
        faults,
        reports,
    })
}

// What is left of an answer for a file.
fn left_of(
    alloc: Global,
    baseline: &Baseline,
    name: &str,
    text: &str,
    answer: Answer,
) -> Result<Answer, NoMemory>
    requires { IsIn text.now answer }
    ensures left { IfOk result (IsLeftOf baseline.now name.now text.now answer) }
    ensures placed { IfOk result (IsIn text.now) }
{
    match answer {
        Answer::Reports(reports) => {
            let kept = unknown_reports(alloc, baseline, name, text, reports)?;
            Ok(Answer::Reports(kept))
        }
        Answer::Partial(partial) => {
            let left = part_left(alloc, baseline, name, text, partial)?;
            Ok(Answer::Partial(left))
        }
        Answer::Refused(refusal) => Ok(Answer::Refused(refusal)),
    }
}

// What is left of a file.
fn left(alloc: Global, baseline: &Baseline, file: Checked) -> Result<Checked, NoMemory>
    requires { IsSound file }
    ensures left { IfOk result (IsLeft baseline.now file) }
    ensures sound { IfOk result IsSound }
{
    let Checked {
        name,
        bytes,
        passed,
        answer,
    } = file;
    let text = readable(bytes.as_slice());
    let answer = left_of(alloc, baseline, name.as_str(), text, answer)?;
    Ok(Checked {
        name,
        bytes,
        passed,
        answer,
    })
}

/// Files without the reports that a baseline knows, in their order. What could not be parsed or linted stays. The error comes when memory runs out.
pub fn without_known(
    alloc: Global,
    baseline: &Baseline,
    files: Vec<Checked>,
) -> Result<Vec<Checked>, NoMemory>
    requires { All IsSound files.items }
    ensures left { IfOk result (λ all. AllZip (IsLeft baseline.now) files.items all.items) }
    ensures sound { IfOk result (λ all. All IsSound all.items) }
{
    let mut all = Vec::new(alloc);
    for file in files {
        let file = left(alloc, baseline, file)?;
        all.push(file)?;
    }
    Ok(all)
}
