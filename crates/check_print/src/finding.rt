//! One finding in each format.
ghost use Rattle.std.specs.Prelude.{◌≡◌, ◌++◌, OnOk};
ghost use Rattle.std.specs.Str.{IsCharBoundary};
ghost use Rattle.checked_file.specs.Sound.{IsReportIn};
ghost use Rattle.checked_file.specs.source_file.Refusals.{place_of};
ghost use Rattle.check_print.specs.Findings.{array_separator, printed_refusal, printed_report, refusal_command, refusal_line, report_command, report_line, separator};

use crate::style::Style;
use check_words::Format;
use checked_file::{Level, NoMemory, Refusal, Report, SourceFile, TextRange};
use report_lines::{Order, push, push_command, push_concise, push_detail};
use std::alloc::Global;

// Adds a report on a line.
fn push_report_line(
    to: &mut Vec<u8>,
    order: Order,
    file: &SourceFile<'_>,
    report: &Report,
) -> Result<(), NoMemory>
    requires { IsReportIn file.now.text report.now }
    ensures { OnOk result (to.new.items ≡ to.old.items ++ report_line order file.now report.now) }
{
    let name = report.code.name().as_bytes();
    let message = report.message.as_str().as_bytes();
    let at = report.text_range.start();
    push_concise(to, order, file, at, Level::Warning, name, message)
}

// Adds a report as a workflow command.
#[tactic(auto, using(std::proofs::lemmas::List::append_assoc))]
fn push_report_command(
    to: &mut Vec<u8>,
    alloc: Global,
    file: &SourceFile<'_>,
    report: &Report,
) -> Result<(), NoMemory>
    requires { IsReportIn file.now.text report.now }
    ensures { OnOk result (to.new.items ≡ to.old.items ++ report_command file.now report.now) }
{
    let name = report.code.name().as_bytes();
    let message = report.message.as_str().as_bytes();
    push_command(
        to,
        alloc,
        file,
        report.text_range,
        Level::Warning,
        name,
        message,
    )?;
    push_detail(to, alloc, b"note", &report.note)?;
    push_detail(to, alloc, b"help", &report.help)?;
    push(to, b"\n")
}

/// Adds a report. The error comes when memory runs out.
#[tactic(auto, unfolding(crate::specs::Findings::printed_report))]
pub(crate) fn push_report(
    to: &mut Vec<u8>,
    alloc: Global,
    style: Style,
    file: &SourceFile<'_>,
    report: &Report,
) -> Result<(), NoMemory>
    requires { IsReportIn file.now.text report.now }
    ensures { OnOk result (to.new.items ≡ to.old.items ++ printed_report style.format style.color file.now report.now) }
{
    match style.format {
        Format::Text => report_text::push_report(to, alloc, style.color, file, report),
        Format::Concise => push_report_line(to, Order::RuleFirst, file, report),
        Format::Gcc => push_report_line(to, Order::RuleLast, file, report),
        Format::Github => push_report_command(to, alloc, file, report),
        Format::Json => report_json::push_report(to, alloc, file, report),
        Format::Sarif => report_sarif::push_report(to, alloc, file, report),
        Format::Gitlab => report_gitlab::push_report(to, alloc, file, report),
    }
}

// Adds on a line why a file could not be linted.
fn push_refusal_line(
    to: &mut Vec<u8>,
    order: Order,
    file: &SourceFile<'_>,
    refusal: &Refusal,
) -> Result<(), NoMemory>
    requires { IsCharBoundary file.now.text (place_of refusal.now) }
    ensures { OnOk result (to.new.items ≡ to.old.items ++ refusal_line order file.now refusal.now) }
{
    let name = refusal.name().as_bytes();
    let message = refusal.message().as_bytes();
    push_concise(
        to,
        order,
        file,
        refusal.place(),
        Level::Error,
        name,
        message,
    )
}

// Adds as a workflow command why a file could not be linted.
fn push_refusal_command(
    to: &mut Vec<u8>,
    alloc: Global,
    file: &SourceFile<'_>,
    refusal: &Refusal,
) -> Result<(), NoMemory>
    requires { IsCharBoundary file.now.text (place_of refusal.now) }
    ensures { OnOk result (to.new.items ≡ to.old.items ++ refusal_command file.now refusal.now) }
{
    let at = refusal.place();
    let range = TextRange::new(at, at);
    let name = refusal.name().as_bytes();
    let message = refusal.message().as_bytes();
    push_command(to, alloc, file, range, Level::Error, name, message)?;
    push(to, b"\n")
}

/// Adds why a file could not be linted. The error comes when memory runs out.
#[tactic(auto, unfolding(crate::specs::Findings::printed_refusal))]
pub(crate) fn push_refusal(
    to: &mut Vec<u8>,
    alloc: Global,
    style: Style,
    file: &SourceFile<'_>,
    refusal: &Refusal,
) -> Result<(), NoMemory>
    requires { IsCharBoundary file.now.text (place_of refusal.now) }
    ensures { OnOk result (to.new.items ≡ to.old.items ++ printed_refusal style.format style.color file.now refusal.now) }
{
    match style.format {
        Format::Text => report_text::push_refusal(to, alloc, style.color, file, refusal),
        Format::Concise => push_refusal_line(to, Order::RuleFirst, file, refusal),
        Format::Gcc => push_refusal_line(to, Order::RuleLast, file, refusal),
        Format::Github => push_refusal_command(to, alloc, file, refusal),
        Format::Json => report_json::push_refusal(to, alloc, file, refusal),
        Format::Sarif => report_sarif::push_refusal(to, alloc, file, refusal),
        Format::Gitlab => report_gitlab::push_refusal(to, alloc, file, refusal),
    }
}

// Adds what is before a finding of an array, by whether another one was before it.
fn push_array_separator(to: &mut Vec<u8>, follows: bool) -> Result<(), NoMemory>
    ensures { OnOk result (to.new.items ≡ to.old.items ++ array_separator follows) }
{
    if follows {
        push(to, b",\n")
    } else {
        push(to, b"\n")
    }
}

/// Adds what is before a finding, by whether another one was before it. The error comes when memory runs out.
pub(crate) fn push_separator(
    to: &mut Vec<u8>,
    format: Format,
    follows: bool,
) -> Result<(), NoMemory>
    ensures { OnOk result (to.new.items ≡ to.old.items ++ separator format follows) }
{
    match format {
        Format::Json | Format::Sarif | Format::Gitlab => push_array_separator(to, follows),
        Format::Text | Format::Concise | Format::Gcc | Format::Github => push(to, b""),
    }
}
