//! What came of all files.
ghost use Rattle.std.specs.Prelude.{◌≡◌, ◌++◌, ◌||◌, All, IfOk, OnOk, codes, false};
ghost use Rattle.checked_file.specs.Sound.{IsSound};
ghost use Rattle.check_print.specs.Printed.{closing, last_line, opening, passed_lines, printed, printed_files, statistics};
ghost use Rattle.report_sarif.specs.Log as sarif;

use crate::answer::push_file;
use crate::counts::counts_of;
use crate::passed::push_passed_lines;
use crate::statistics::push_code_lines;
use crate::style::Style;
use check_words::Format;
use checked_file::{Checked, NoMemory};
use report_lines::push;
use report_text::push_closing;
use std::alloc::Global;

// Whether one of two things is so.
fn either(first: bool, second: bool) -> bool
    ensures { result ≡ (first || second) }
{
    first || second
}

// Adds what came of files, in order.
fn push_files(
    to: &mut Vec<u8>,
    alloc: Global,
    style: Style,
    files: &[Checked],
) -> Result<(), NoMemory>
    requires { All IsSound files.now }
    ensures { OnOk result (to.new.items ≡ to.old.items ++ printed_files style false files.now) }
{
    let mut behind = false;
    for file in files {
        push_file(to, alloc, style, behind, file)?;
        behind = either(behind, file.answer.has_findings());
    }
    Ok(())
}

// Adds what is before the first file.
fn push_opening(to: &mut Vec<u8>, format: Format) -> Result<(), NoMemory>
    ensures { OnOk result (to.new.items ≡ to.old.items ++ opening format) }
{
    match format {
        Format::Json | Format::Gitlab => push(to, b"["),
        Format::Sarif => report_sarif::push_opening(to),
        Format::Text | Format::Concise | Format::Gcc | Format::Github => push(to, b""),
    }
}

// Adds the lines that count the reports of each rule and hazard, where these are asked for.
#[tactic(auto, unfolding(crate::specs::Printed::statistics))]
fn push_statistics(to: &mut Vec<u8>, style: Style, files: &[Checked]) -> Result<(), NoMemory>
    ensures { OnOk result (to.new.items ≡ to.old.items ++ statistics style files.now) }
{
    if style.statistics {
        push_code_lines(to, files)
    } else {
        push(to, b"")
    }
}

// Adds the line that counts all, where it is asked for.
#[tactic(auto, unfolding(crate::specs::Printed::last_line))]
fn push_last_line(to: &mut Vec<u8>, style: Style, files: &[Checked]) -> Result<(), NoMemory>
    ensures { OnOk result (to.new.items ≡ to.old.items ++ last_line style files.now) }
{
    if style.quiet {
        push(to, b"")
    } else {
        push_closing(to, counts_of(files))
    }
}

// Adds the end of a log, on a line of its own.
fn push_log_end(to: &mut Vec<u8>, alloc: Global) -> Result<(), NoMemory>
    ensures { OnOk result (to.new.items ≡ to.old.items ++ codes "\n" ++ sarif.closing ++ codes "\n") }
{
    push(to, b"\n")?;
    report_sarif::push_closing(to, alloc)?;
    push(to, b"\n")
}

// Adds the lines on what was passed over, where they are asked for.
#[tactic(auto, unfolding(crate::specs::Printed::passed_lines))]
fn push_passed(
    to: &mut Vec<u8>,
    alloc: Global,
    style: Style,
    files: &[Checked],
) -> Result<(), NoMemory>
    requires { All IsSound files.now }
    ensures { OnOk result (to.new.items ≡ to.old.items ++ passed_lines style files.now) }
{
    if style.quiet {
        push(to, b"")
    } else {
        push_passed_lines(to, alloc, files)
    }
}

// Adds these, and both kinds of lines that count.
fn push_last_lines(
    to: &mut Vec<u8>,
    alloc: Global,
    style: Style,
    files: &[Checked],
) -> Result<(), NoMemory>
    requires { All IsSound files.now }
    ensures { OnOk result (to.new.items ≡ to.old.items ++ passed_lines style files.now ++ statistics style files.now ++ last_line style files.now) }
{
    push_passed(to, alloc, style, files)?;
    push_statistics(to, style, files)?;
    push_last_line(to, style, files)
}

// Adds what is after the last file.
fn push_end(
    to: &mut Vec<u8>,
    alloc: Global,
    style: Style,
    files: &[Checked],
) -> Result<(), NoMemory>
    requires { All IsSound files.now }
    ensures { OnOk result (to.new.items ≡ to.old.items ++ closing style files.now) }
{
    match style.format {
        Format::Text => push_last_lines(to, alloc, style, files),
        Format::Concise | Format::Gcc | Format::Github => push_statistics(to, style, files),
        Format::Json | Format::Gitlab => push(to, b"\n]\n"),
        Format::Sarif => push_log_end(to, alloc),
    }
}

/// What is written of the files of a run. The error comes when memory runs out.
pub fn printed(alloc: Global, style: Style, files: &[Checked]) -> Result<Vec<u8>, NoMemory>
    requires { All IsSound files.now }
    ensures { IfOk result (λ bytes. bytes.items ≡ printed style files.now) }
{
    let mut all = Vec::new(alloc);
    push_opening(&mut all, style.format)?;
    push_files(&mut all, alloc, style, files)?;
    push_end(&mut all, alloc, style, files)?;
    Ok(all)
}
