//! Findings.
ghost use Rattle.std.specs.Prelude.{◌≡◌, ◌++◌, OnOk, codes, is_none};
ghost use Rattle.std.specs.Str.{IsCharBoundary};
ghost use Rattle.source_file.specs.File.{IsRangeIn};
ghost use Rattle.source_file.specs.Refusals as refusals;
ghost use Rattle.report_text.specs.Report.{arrow, head, hides_help, hint_part, label, layout_of, name_arrow, note, note_row, notes, printed_refusal, printed_report, refusal_head, shown_help, title};

use crate::excerpt::push_excerpt;
use crate::fixed::push_fix;
use crate::helps::is_refused_help;
use crate::layout::{Layout, digits, push_number};
use crate::paint::{Style, push, push_closed, push_opened, push_painted, push_repeated};
use lint_base::{NoMemory, Text, TextRange, TextSize};
use lint_report::Report;
use source_file::{Hint, Level, Refusal, SourceFile, hint_for, push_escaped};
use std::alloc::Global;

// The layout of the reports of a file: its numbers have as many columns as that of its last line.
fn layout_of(file: &SourceFile<'_>, color: bool) -> Layout
    ensures { result ≡ layout_of file.now.text color }
{
    let last = file.line(file.last());
    Layout {
        color,
        gutter: digits(last),
    }
}

// Adds `warning[name]`.
#[tactic(auto, using(std::proofs::lemmas::List::append_assoc))]
fn push_label(to: &mut Vec<u8>, color: bool, level: Level, name: &[u8]) -> Result<(), NoMemory>
    ensures { OnOk result (to.new.items ≡ to.old.items ++ label color level name.now) }
{
    push_opened(to, color, Style::of(level))?;
    push(to, level.word().as_bytes())?;
    push(to, b"[")?;
    push(to, name)?;
    push(to, b"]")?;
    push_closed(to, color)
}

// Adds `warning[name]: message`.
#[tactic(auto, using(std::proofs::lemmas::List::append_assoc), unfolding(crate::specs::Report::title))]
fn push_title(
    to: &mut Vec<u8>,
    color: bool,
    level: Level,
    name: &[u8],
    message: &[u8],
) -> Result<(), NoMemory>
    ensures { OnOk result (to.new.items ≡ to.old.items ++ title color level name.now message.now) }
{
    push_label(to, color, level, name)?;
    push_opened(to, color, Style::Bold)?;
    push(to, b": ")?;
    push_escaped(to, message)?;
    push_closed(to, color)?;
    push(to, b"\n")
}

// Adds `  --> file:line:column`.
fn push_arrow(
    to: &mut Vec<u8>,
    layout: Layout,
    file: &SourceFile<'_>,
    at: TextSize,
) -> Result<(), NoMemory>
    requires { IsCharBoundary file.now.text at }
    ensures { OnOk result (to.new.items ≡ to.old.items ++ arrow layout file.now at) }
{
    let place = file.place(at);
    push_repeated(to, b' ', layout.gutter)?;
    push_painted(to, layout.color, Style::Frame, b"-->")?;
    push(to, b" ")?;
    push_escaped(to, file.name().as_bytes())?;
    push(to, b":")?;
    push_number(to, place.line)?;
    push(to, b":")?;
    push_number(to, place.column)?;
    push(to, b"\n")
}

// Adds all of a finding up to its excerpt.
#[tactic(auto, unfolding(crate::specs::Report::head))]
fn push_head(
    to: &mut Vec<u8>,
    alloc: Global,
    layout: Layout,
    level: Level,
    file: &SourceFile<'_>,
    range: TextRange,
) -> Result<(), NoMemory>
    requires { IsRangeIn file.now.text range }
    ensures { OnOk result (to.new.items ≡ to.old.items ++ head layout level file.now range) }
{
    push_arrow(to, layout, file, range.start())?;
    layout.push_bar_line(to)?;
    push_excerpt(to, alloc, layout, Style::of(level), file, range)
}

// Adds `   = note: text`.
#[tactic(auto, unfolding(crate::specs::Report::note_row))]
fn push_note_row(to: &mut Vec<u8>, layout: Layout, label: &[u8], text: &str) -> Result<(), NoMemory>
    ensures { OnOk result (to.new.items ≡ to.old.items ++ note_row layout label.now text.now) }
{
    layout.push_point(to)?;
    push_painted(to, layout.color, Style::Bold, label)?;
    push(to, b": ")?;
    push_escaped(to, text.as_bytes())?;
    push(to, b"\n")
}

// Adds `   = note: text`, where there is a text.
fn push_note(
    to: &mut Vec<u8>,
    layout: Layout,
    label: &[u8],
    text: &Option<Text>,
) -> Result<(), NoMemory>
    ensures { OnOk result (to.new.items ≡ to.old.items ++ note layout label.now text.now) }
{
    match text {
        None => Ok(()),
        Some(text) => push_note_row(to, layout, label, text.as_str()),
    }
}

// Whether PostgreSQL refuses what the help of a report says.
fn hides_help(file: &SourceFile<'_>, report: &Report) -> bool
    requires { IsRangeIn file.now.text report.now.text_range }
    ensures { result ≡ hides_help file.now report.now }
{
    let start = report.text_range.start().raw() as usize;
    let end = report.text_range.end().raw() as usize;
    is_refused_help(report.code, &file.text().as_bytes()[start..end])
}

// Whether no help is shown.
fn lacks_help(report: &Report, hides: bool) -> bool
    ensures { result ≡ is_none (shown_help report.now hides) }
{
    hides || report.help.is_none()
}

// Adds the help that is shown.
fn push_help(to: &mut Vec<u8>, layout: Layout, report: &Report, hides: bool) -> Result<(), NoMemory>
    ensures { OnOk result (to.new.items ≡ to.old.items ++ note layout (codes "help") (shown_help report.now hides)) }
{
    if hides {
        return Ok(());
    }
    push_note(to, layout, b"help", &report.help)
}

// Adds a note and a help, below a row that has nothing but its margin, which is there before a fix too.
#[tactic(auto, unfolding(crate::specs::Report::notes))]
fn push_notes(
    to: &mut Vec<u8>,
    layout: Layout,
    report: &Report,
    hides: bool,
) -> Result<(), NoMemory>
    ensures { OnOk result (to.new.items ≡ to.old.items ++ notes layout report.now (shown_help report.now hides)) }
{
    if report.note.is_none() && lacks_help(report, hides) && report.fix.is_none() {
        return Ok(());
    }
    layout.push_bar_line(to)?;
    push_note(to, layout, b"note", &report.note)?;
    push_help(to, layout, report, hides)
}

/// Adds a report of a file. The error comes when memory runs out.
pub fn push_report(
    to: &mut Vec<u8>,
    alloc: Global,
    color: bool,
    file: &SourceFile<'_>,
    report: &Report,
) -> Result<(), NoMemory>
    requires { IsRangeIn file.now.text report.now.text_range }
    ensures { OnOk result (to.new.items ≡ to.old.items ++ printed_report color file.now report.now) }
{
    let layout = layout_of(file, color);
    let name = report.code.name().as_bytes();
    push_title(
        to,
        color,
        Level::Warning,
        name,
        report.message.as_str().as_bytes(),
    )?;
    push_head(to, alloc, layout, Level::Warning, file, report.text_range)?;
    push_notes(to, layout, report, hides_help(file, report))?;
    push_fix(to, alloc, layout, file, &report.fix)?;
    push(to, b"\n")
}

// Adds `  --> file`, of a file without a text.
fn push_name_arrow(to: &mut Vec<u8>, layout: Layout, file: &SourceFile<'_>) -> Result<(), NoMemory>
    ensures { OnOk result (to.new.items ≡ to.old.items ++ name_arrow layout file.now) }
{
    push_repeated(to, b' ', layout.gutter)?;
    push_painted(to, layout.color, Style::Frame, b"-->")?;
    push(to, b" ")?;
    push_escaped(to, file.name().as_bytes())?;
    push(to, b"\n")
}

// Adds where a fault is, with its line; of a file without a text, its name.
fn push_refusal_head(
    to: &mut Vec<u8>,
    alloc: Global,
    layout: Layout,
    file: &SourceFile<'_>,
    refusal: &Refusal,
) -> Result<(), NoMemory>
    requires { IsCharBoundary file.now.text (refusals.place_of refusal.now) }
    ensures { OnOk result (to.new.items ≡ to.old.items ++ refusal_head layout file.now refusal.now) }
{
    if !refusal.has_place() {
        return push_name_arrow(to, layout, file);
    }
    let at = refusal.place();
    push_head(
        to,
        alloc,
        layout,
        Level::Error,
        file,
        TextRange::new(at, at),
    )
}

// Adds what may help.
#[tactic(auto, unfolding(crate::specs::Report::hint_part))]
fn push_hint(to: &mut Vec<u8>, layout: Layout, hint: Option<Hint>) -> Result<(), NoMemory>
    ensures { OnOk result (to.new.items ≡ to.old.items ++ hint_part layout hint) }
{
    let Some(hint) = hint else {
        return Ok(());
    };
    layout.push_bar_line(to)?;
    push_note_row(to, layout, b"help", hint.text())
}

/// Adds why a file could not be linted, and what may help. A file of which no text was read has no lines. The error comes when
/// memory runs out.
pub fn push_refusal(
    to: &mut Vec<u8>,
    alloc: Global,
    color: bool,
    file: &SourceFile<'_>,
    refusal: &Refusal,
) -> Result<(), NoMemory>
    requires { IsCharBoundary file.now.text (refusals.place_of refusal.now) }
    ensures { OnOk result (to.new.items ≡ to.old.items ++ printed_refusal color file.now refusal.now) }
{
    let layout = layout_of(file, color);
    push_title(
        to,
        color,
        Level::Error,
        refusal.name().as_bytes(),
        refusal.message().as_bytes(),
    )?;
    push_refusal_head(to, alloc, layout, file, refusal)?;
    push_hint(to, layout, hint_for(file.text(), refusal))?;
    push(to, b"\n")
}
