//! The rows of a report.
ghost use Rattle.std.specs.Prelude.{◌≡◌, ◌<◌, ◌^◌, ◌++◌, OnOk, decimal, length, replicate};
ghost use Rattle.std.specs.Str.{IsCharBoundary};
ghost use Rattle.gate_report.specs.Report as spec;

use itoa::Buffer;
use report_lines::{
    NoMemory, Place, SourceFile, TextSize, block, front, push, push_escaped, push_number,
    push_shown, width,
};

// How many digits a number has.
fn digits(number: usize) -> usize
    ensures { result ≡ length (decimal number) }
{
    let mut buffer = Buffer::new();
    buffer.format(number).len()
}

// Adds so many blanks.
fn push_blanks(to: &mut Vec<u8>, count: usize) -> Result<(), NoMemory>
    ensures { OnOk result (to.new.items ≡ to.old.items ++ replicate count 32) }
{
    let long = to.len().checked_add(count).ok_or(NoMemory)?;
    to.resize(long, b' ')?;
    Ok(())
}

/// Adds `error[name]: message`.
pub(crate) fn push_title(to: &mut Vec<u8>, name: &str, message: &str) -> Result<(), NoMemory>
    ensures { OnOk result (to.new.items ≡ to.old.items ++ spec.title name.now message.now) }
{
    push(to, b"error[")?;
    push(to, name.as_bytes())?;
    push(to, b"]: ")?;
    push(to, message.as_bytes())?;
    push(to, b"\n")
}

/// Adds ` --> file`.
pub(crate) fn push_name(to: &mut Vec<u8>, name: &str) -> Result<(), NoMemory>
    ensures { OnOk result (to.new.items ≡ to.old.items ++ spec.name_row name.now) }
{
    push(to, b" --> ")?;
    push_escaped(to, name.as_bytes())?;
    push(to, b"\n")
}

// Adds `:line:column`.
#[tactic(auto, unfolding(crate::specs::Report::place_part))]
fn push_place(to: &mut Vec<u8>, place: Place) -> Result<(), NoMemory>
    ensures { OnOk result (to.new.items ≡ to.old.items ++ spec.place_part place) }
{
    push(to, b":")?;
    push_number(to, place.line)?;
    push(to, b":")?;
    push_number(to, place.column)?;
    push(to, b"\n")
}

// Adds ` --> file:line:column`.
fn push_arrow(to: &mut Vec<u8>, gutter: usize, name: &str, place: Place) -> Result<(), NoMemory>
    ensures { OnOk result (to.new.items ≡ to.old.items ++ spec.arrow gutter name.now place) }
{
    push_blanks(to, gutter)?;
    push(to, b"--> ")?;
    push_escaped(to, name.as_bytes())?;
    push_place(to, place)
}

// Adds a row that has nothing but its margin.
fn push_bar_row(to: &mut Vec<u8>, gutter: usize) -> Result<(), NoMemory>
    ensures { OnOk result (to.new.items ≡ to.old.items ++ spec.bar_row gutter) }
{
    push_blanks(to, gutter)?;
    push(to, b" |\n")
}

// Adds a line with its number.
fn push_line_row(to: &mut Vec<u8>, number: usize, line: &[u8]) -> Result<(), NoMemory>
    ensures { OnOk result (to.new.items ≡ to.old.items ++ spec.line_row number line.now) }
{
    push_number(to, number)?;
    push(to, b" | ")?;
    push_shown(to, line)?;
    push(to, b"\n")
}

// Adds a caret under a place of the line above, by what is before it.
fn push_caret_row(to: &mut Vec<u8>, gutter: usize, before: &str) -> Result<(), NoMemory>
    requires { length before.now < 2 ^ 32 }
    ensures { OnOk result (to.new.items ≡ to.old.items ++ spec.caret_row gutter before.now) }
{
    push_blanks(to, gutter)?;
    push(to, b" |")?;
    push_blanks(to, width(before) + 1)?;
    push(to, b"^\n")
}

// Adds the line of a place with a caret under it.
#[tactic(auto, unfolding(crate::specs::Report::excerpt))]
fn push_excerpt(
    to: &mut Vec<u8>,
    gutter: usize,
    number: usize,
    text: &str,
    at: usize,
) -> Result<(), NoMemory>
    requires place { IsCharBoundary text.now at }
    requires short { length text.now < 2 ^ 32 }
    ensures { OnOk result (to.new.items ≡ to.old.items ++ spec.excerpt gutter number text.now at) }
{
    push_bar_row(to, gutter)?;
    push_line_row(to, number, block(text.as_bytes(), at, at))?;
    push_caret_row(to, gutter, front(text, at))
}

/// Adds a place of a file and its line, and gives how many columns the number of the line has.
#[tactic(auto, unfolding(crate::specs::Report::placed))]
pub(crate) fn push_placed(
    to: &mut Vec<u8>,
    file: &SourceFile<'_>,
    at: TextSize,
) -> Result<usize, NoMemory>
    requires place { IsCharBoundary file.now.text at }
    requires short { length file.now.text < 2 ^ 32 }
    ensures { spec.HasPlaced result file.now at to.old.items to.new.items }
{
    let place = file.place(at);
    let gutter = digits(place.line);
    push_arrow(to, gutter, file.name(), place)?;
    push_excerpt(to, gutter, place.line, file.text(), at.raw() as usize)?;
    Ok(gutter)
}

/// Adds the row of a help, which is given in pieces.
#[tactic(auto, unfolding(crate::specs::Report::help_row))]
pub(crate) fn push_help(
    to: &mut Vec<u8>,
    gutter: usize,
    command: &[u8],
    help: &str,
) -> Result<(), NoMemory>
    ensures { OnOk result (to.new.items ≡ to.old.items ++ spec.help_row gutter command.now help.now) }
{
    push_bar_row(to, gutter)?;
    push_blanks(to, gutter)?;
    push(to, b" = help: ")?;
    push(to, command)?;
    push(to, help.as_bytes())?;
    push(to, b"\n")
}
