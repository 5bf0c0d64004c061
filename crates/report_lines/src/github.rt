//! A finding as a workflow command of GitHub.
ghost use Rattle.std.specs.Prelude.{◌≡◌, ◌++◌, OnOk, flat_map};
ghost use Rattle.source_file.specs.File.{IsRangeIn};
ghost use Rattle.report_lines.specs.Github.{columns_part, command, detail, encoded, encoded_byte, lines_part, opening, property, property_byte, span, titled};

use crate::piece::{push, push_number};
use lint_base::{NoMemory, Text, TextRange};
use source_file::{Level, Place, SourceFile, push_escaped};
use std::alloc::Global;

// Adds a byte of a message.
fn push_encoded_byte(to: &mut Vec<u8>, byte: u8) -> Result<(), NoMemory>
    ensures { OnOk result (to.new.items ≡ to.old.items ++ encoded_byte byte) }
{
    match byte {
        b'%' => push(to, b"%25"),
        b'\r' => push(to, b"%0D"),
        b'\n' => push(to, b"%0A"),
        _ => push(to, &[byte]),
    }
}

// Adds a byte of a property.
fn push_property_byte(to: &mut Vec<u8>, byte: u8) -> Result<(), NoMemory>
    ensures { OnOk result (to.new.items ≡ to.old.items ++ property_byte byte) }
{
    match byte {
        b':' => push(to, b"%3A"),
        b',' => push(to, b"%2C"),
        _ => push_encoded_byte(to, byte),
    }
}

// Adds the bytes of a message, or of a part of one.
fn push_encoded_bytes(to: &mut Vec<u8>, text: &[u8]) -> Result<(), NoMemory>
    ensures { OnOk result (to.new.items ≡ to.old.items ++ flat_map encoded_byte text.now) }
{
    for byte in text {
        push_encoded_byte(to, *byte)?;
    }
    Ok(())
}

// Adds the bytes of a property.
fn push_property_bytes(to: &mut Vec<u8>, text: &[u8]) -> Result<(), NoMemory>
    ensures { OnOk result (to.new.items ≡ to.old.items ++ flat_map property_byte text.now) }
{
    for byte in text {
        push_property_byte(to, *byte)?;
    }
    Ok(())
}

// Adds a message, or a part of one.
#[tactic(auto, unfolding(crate::specs::Github::encoded))]
fn push_encoded(to: &mut Vec<u8>, alloc: Global, text: &[u8]) -> Result<(), NoMemory>
    ensures { OnOk result (to.new.items ≡ to.old.items ++ encoded text.now) }
{
    let mut piece = Vec::new(alloc);
    push_encoded_bytes(&mut piece, text)?;
    push_escaped(to, piece.as_slice())
}

// Adds the value of a property.
#[tactic(auto, unfolding(crate::specs::Github::property))]
fn push_property(to: &mut Vec<u8>, alloc: Global, text: &[u8]) -> Result<(), NoMemory>
    ensures { OnOk result (to.new.items ≡ to.old.items ++ property text.now) }
{
    let mut piece = Vec::new(alloc);
    push_property_bytes(&mut piece, text)?;
    push_escaped(to, piece.as_slice())
}

// Adds the lines of a range.
fn push_lines(to: &mut Vec<u8>, first: Place, last: Place) -> Result<(), NoMemory>
    ensures { OnOk result (to.new.items ≡ to.old.items ++ lines_part first last) }
{
    push(to, b",line=")?;
    push_number(to, first.line)?;
    push(to, b",endLine=")?;
    push_number(to, last.line)
}

// Adds the columns of a range, which GitHub takes only where it is on one line.
fn push_columns(to: &mut Vec<u8>, first: Place, last: Place) -> Result<(), NoMemory>
    ensures { OnOk result (to.new.items ≡ to.old.items ++ columns_part first last) }
{
    if first.line != last.line {
        return Ok(());
    }
    push(to, b",col=")?;
    push_number(to, first.column)?;
    push(to, b",endColumn=")?;
    push_number(to, last.column)
}

// Adds the name of the command and of the file.
#[tactic(auto, unfolding(crate::specs::Github::opening))]
fn push_opening(
    to: &mut Vec<u8>,
    alloc: Global,
    file: &SourceFile<'_>,
    level: Level,
) -> Result<(), NoMemory>
    ensures { OnOk result (to.new.items ≡ to.old.items ++ opening file.now level) }
{
    push(to, b"::")?;
    push(to, level.word().as_bytes())?;
    push(to, b" file=")?;
    push_property(to, alloc, file.name().as_bytes())
}

// Adds the range.
#[tactic(auto, unfolding(crate::specs::Github::span))]
fn push_span(to: &mut Vec<u8>, file: &SourceFile<'_>, range: TextRange) -> Result<(), NoMemory>
    requires { IsRangeIn file.now.text range }
    ensures { OnOk result (to.new.items ≡ to.old.items ++ span file.now range) }
{
    let first = file.place(range.start());
    let last = file.place(range.end());
    push_lines(to, first, last)?;
    push_columns(to, first, last)
}

// Adds the rule and the message.
#[tactic(auto, unfolding(crate::specs::Github::titled))]
fn push_titled(to: &mut Vec<u8>, alloc: Global, name: &[u8], message: &[u8]) -> Result<(), NoMemory>
    ensures { OnOk result (to.new.items ≡ to.old.items ++ titled name.now message.now) }
{
    push(to, b",title=")?;
    push_property(to, alloc, name)?;
    push(to, b"::")?;
    push_encoded(to, alloc, message)
}

/// Adds what a finding says beside its message, on a line of its own where it says that. The error comes when memory runs out.
pub fn push_detail(
    to: &mut Vec<u8>,
    alloc: Global,
    label: &[u8],
    text: &Option<Text>,
) -> Result<(), NoMemory>
    ensures { OnOk result (to.new.items ≡ to.old.items ++ detail label.now text.now) }
{
    let Some(text) = text else {
        return Ok(());
    };
    push(to, b"%0A")?;
    push(to, label)?;
    push(to, b": ")?;
    push_encoded(to, alloc, text.as_str().as_bytes())
}

/// Adds a finding as a workflow command, but for its details and the end of the line. The error comes when memory runs out.
pub fn push_command(
    to: &mut Vec<u8>,
    alloc: Global,
    file: &SourceFile<'_>,
    range: TextRange,
    level: Level,
    name: &[u8],
    message: &[u8],
) -> Result<(), NoMemory>
    requires { IsRangeIn file.now.text range }
    ensures { OnOk result (to.new.items ≡ to.old.items ++ command file.now range level name.now message.now) }
{
    push_opening(to, alloc, file, level)?;
    push_span(to, file, range)?;
    push_titled(to, alloc, name, message)
}
