//! The lines of a range, with marks under them.
ghost use Rattle.std.specs.Prelude.{◌≡◌, ◌+◌, ◌<◌, ◌^◌, ◌++◌, OnOk, length, map};
ghost use Rattle.source_file.specs.File.{IsRangeIn};
ghost use Rattle.report_text.specs.Excerpt.{carets, closing_row, excerpt, inner_part, inset_row, is_blank, lead, one_excerpt, opening_rows, plain_row, stroke_row};

use crate::layout::Layout;
use crate::paint::{Style, push, push_closed, push_opened, push_painted, push_repeated};
use crate::rows::{push_gap, push_inner_rows};
use lint_base::{NoMemory, TextRange};
use source_file::{SourceFile, block, front, lines, push_shown, width};
use std::alloc::Global;

// How many lines of the inside of a range are shown: all of them, or else the first and the last ones.
const MOST: usize = 5;

const FIRST: usize = 3;

const LAST: usize = 2;

// Whether a piece is blanks and tabs alone.
fn is_blank(piece: &[u8]) -> bool
    ensures { result ≡ is_blank piece.now }
{
    piece.iter().all(|byte| *byte == b' ' || *byte == b'\t')
}

// Adds a line as it is: ` 7 | text`, with so much before the text.
fn push_plain_row(
    to: &mut Vec<u8>,
    layout: Layout,
    number: usize,
    line: &[u8],
) -> Result<(), NoMemory>
    ensures { OnOk result (to.new.items ≡ to.old.items ++ plain_row layout number line.now) }
{
    layout.push_number_bar(to, number)?;
    push(to, b" ")?;
    push_shown(to, line)?;
    push(to, b"\n")
}

// Adds carets under the line above: so many, after so many blanks.
fn push_carets(
    to: &mut Vec<u8>,
    layout: Layout,
    style: Style,
    before: usize,
    count: usize,
) -> Result<(), NoMemory>
    ensures { OnOk result (to.new.items ≡ to.old.items ++ carets layout style before count) }
{
    layout.push_bar(to)?;
    push_repeated(to, b' ', before)?;
    push_opened(to, layout.color, style)?;
    push_repeated(to, b'^', count)?;
    push_closed(to, layout.color)?;
    push(to, b"\n")
}

// Adds a line and carets under a piece of it.
fn push_one(
    to: &mut Vec<u8>,
    layout: Layout,
    style: Style,
    number: usize,
    before: &str,
    covered: &str,
    line: &[u8],
) -> Result<(), NoMemory>
    requires before { length before.now < 2 ^ 32 }
    requires covered { length covered.now < 2 ^ 32 }
    ensures { OnOk result (to.new.items ≡ to.old.items ++ one_excerpt layout style number before.now covered.now line.now) }
{
    push_plain_row(to, layout, number, line)?;
    push_carets(to, layout, style, width(before) + 1, width(covered).max(1))
}

// Adds a line with a stroke before it: ` 7 | / text`.
fn push_stroke_row(
    to: &mut Vec<u8>,
    layout: Layout,
    style: Style,
    number: usize,
    line: &[u8],
) -> Result<(), NoMemory>
    ensures { OnOk result (to.new.items ≡ to.old.items ++ stroke_row layout style number line.now) }
{
    layout.push_number_bar(to, number)?;
    push(to, b" ")?;
    push_painted(to, layout.color, style, b"/")?;
    push(to, b" ")?;
    push_shown(to, line)?;
    push(to, b"\n")
}

// Adds a line that leaves room for a stroke: ` 7 |   text`.
fn push_inset_row(
    to: &mut Vec<u8>,
    layout: Layout,
    number: usize,
    line: &[u8],
) -> Result<(), NoMemory>
    ensures { OnOk result (to.new.items ≡ to.old.items ++ inset_row layout number line.now) }
{
    layout.push_number_bar(to, number)?;
    push(to, b"   ")?;
    push_shown(to, line)?;
    push(to, b"\n")
}

// Adds a caret under a place of the line above, and a line that leads to it: `   |  ____^`.
#[tactic(auto, using(std::proofs::lemmas::List::append_assoc))]
fn push_lead(to: &mut Vec<u8>, layout: Layout, style: Style, count: usize) -> Result<(), NoMemory>
    ensures { OnOk result (to.new.items ≡ to.old.items ++ lead layout style count) }
{
    layout.push_bar(to)?;
    push(to, b"  ")?;
    push_opened(to, layout.color, style)?;
    push_repeated(to, b'_', count)?;
    push(to, b"^")?;
    push_closed(to, layout.color)?;
    push(to, b"\n")
}

// Adds the line on which a range of several lines begins.
fn push_opening(
    to: &mut Vec<u8>,
    layout: Layout,
    style: Style,
    number: usize,
    before: &str,
    line: &[u8],
) -> Result<(), NoMemory>
    requires { length before.now < 2 ^ 32 }
    ensures { OnOk result (to.new.items ≡ to.old.items ++ opening_rows layout style number before.now line.now) }
{
    if is_blank(before.as_bytes()) {
        return push_stroke_row(to, layout, style, number, line);
    }
    push_inset_row(to, layout, number, line)?;
    push_lead(to, layout, style, width(before) + 1)
}

// Adds the other lines of a range, all of them or the first and the last ones.
fn push_inner(
    to: &mut Vec<u8>,
    layout: Layout,
    style: Style,
    number: usize,
    lines: &[&[u8]],
) -> Result<(), NoMemory>
    requires { number + length lines.now < 2 ^ 64 }
    ensures { OnOk result (to.new.items ≡ to.old.items ++ inner_part layout style number (map (λ line. line.now) lines.now)) }
{
    if lines.len() <= MOST {
        return push_inner_rows(to, layout, style, number, lines);
    }
    let left_out = lines.len() - LAST;
    push_inner_rows(to, layout, style, number, &lines[..FIRST])?;
    push_gap(to, layout, style)?;
    push_inner_rows(to, layout, style, number + left_out, &lines[left_out..])
}

// Adds the row under the line on which a range of several lines ends: `   | |__^`.
#[tactic(auto, using(std::proofs::lemmas::List::append_assoc))]
fn push_closing(
    to: &mut Vec<u8>,
    layout: Layout,
    style: Style,
    covered: &str,
) -> Result<(), NoMemory>
    requires { length covered.now < 2 ^ 32 }
    ensures { OnOk result (to.new.items ≡ to.old.items ++ closing_row layout style covered.now) }
{
    layout.push_bar(to)?;
    push(to, b" ")?;
    push_opened(to, layout.color, style)?;
    push(to, b"|")?;
    push_repeated(to, b'_', width(covered))?;
    push(to, b"^")?;
    push_closed(to, layout.color)?;
    push(to, b"\n")
}

/// Adds the lines of a range, with marks under them.
pub(crate) fn push_excerpt(
    to: &mut Vec<u8>,
    alloc: Global,
    layout: Layout,
    style: Style,
    file: &SourceFile<'_>,
    range: TextRange,
) -> Result<(), NoMemory>
    requires { IsRangeIn file.now.text range }
    ensures { OnOk result (to.new.items ≡ to.old.items ++ excerpt layout style file.now.text range) }
{
    let text = file.text();
    let start = range.start().raw() as usize;
    let end = range.end().raw() as usize;
    let number = file.line(range.start());
    let shown = lines(alloc, block(text.as_bytes(), start, end))?;
    match shown.as_slice() {
        [] => Ok(()),
        [line] => push_one(
            to,
            layout,
            style,
            number,
            front(text, start),
            &text[start..end],
            line,
        ),
        [line, more @ ..] => {
            push_opening(to, layout, style, number, front(text, start), line)?;
            push_inner(to, layout, style, number + 1, more)?;
            push_closing(to, layout, style, front(text, end))
        }
    }
}
