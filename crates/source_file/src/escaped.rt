//! Names and messages as they are written on a line.
ghost use Rattle.std.specs.Prelude.{◌≡◌, ◌++◌, Bool, OnOk};
ghost use Rattle.source_file.specs.Escaped as spec;
ghost use Rattle.source_file.specs.Escaped.{escaped, escaped_after, escaped_byte, escaped_name, first_escaped};

use crate::shown::{byte_at, is_c1, is_embedding, is_isolate, more_len, push_c1, push_escape};
use text_pos::NoMemory;

// Adds a byte: a control character as an escape.
fn push_byte(to: &mut Vec<u8>, byte: u8) -> Result<(), NoMemory>
    ensures { OnOk result (to.new.items ≡ to.old.items ++ escaped_byte byte) }
{
    match byte {
        0..=15 => push_escape(to, b"", byte),
        16..=31 => push_escape(to, b"1", byte - 16),
        127 => push_escape(to, b"7", 15),
        _ => {
            to.push(byte)?;
            Ok(())
        }
    }
}

// Whether these bytes begin an escape.
fn is_escape(a: u8, b: u8, c: u8) -> bool
    ensures { result ≡ spec.is_escape a b c }
{
    a == b'\\' && b == b'u' && c == b'{'
}

// Whether these bytes are a colon before a digit, where such a colon is escaped.
fn is_mark(marks: bool, a: u8, b: u8) -> bool
    ensures { result ≡ spec.is_mark marks a b }
{
    marks && a == b':' && b'0' <= b && b <= b'9'
}

// Adds what begins an escape or is a colon before a digit as an escape, and any other byte as it is written.
fn push_mark(to: &mut Vec<u8>, marks: bool, a: u8, b: u8, c: u8) -> Result<(), NoMemory>
    ensures { OnOk result (to.new.items ≡ to.old.items ++ spec.mark_escaped marks a b c) }
{
    if is_escape(a, b, c) {
        return push_escape(to, b"5", 12);
    }
    if is_mark(marks, a, b) {
        return push_escape(to, b"3", 10);
    }
    push_byte(to, a)
}

// Adds the character that begins with these bytes, or else the first of them, as it is written.
fn push_first(to: &mut Vec<u8>, marks: bool, a: u8, b: u8, c: u8) -> Result<(), NoMemory>
    ensures { OnOk result (to.new.items ≡ to.old.items ++ first_escaped marks a b c) }
{
    if is_c1(a, b) {
        return push_c1(to, b);
    }
    if is_embedding(a, b, c) {
        return push_escape(to, b"202", c - 0xa0);
    }
    if is_isolate(a, b, c) {
        return push_escape(to, b"206", c - 0xa0);
    }
    push_mark(to, marks, a, b, c)
}

// Adds a text, with colons before digits as escapes or as they are.
fn push_text(to: &mut Vec<u8>, marks: bool, text: &[u8]) -> Result<(), NoMemory>
    ensures { OnOk result (to.new.items ≡ to.old.items ++ escaped_after marks 0 text.now) }
{
    let mut at = 0;
    'text: while at < text.len() {
        let first = byte_at(text, at);
        let second = byte_at(text, at + 1);
        let third = byte_at(text, at + 2);
        push_first(to, marks, first, second, third)?;
        at += 1 + more_len(first, second, third);
    }
    Ok(())
}

/// Adds a message, or another text that is no excerpt, as it is written on a line: control characters, those that turn the direction of a
/// text, and a backslash before `u{` as escapes, `\u{1b}`, and all else as it is. So nothing of it can steer a terminal or end the line, and
/// it can be read back. The error comes when memory runs out.
pub fn push_escaped(to: &mut Vec<u8>, text: &[u8]) -> Result<(), NoMemory>
    ensures { OnOk result (to.new.items ≡ to.old.items ++ escaped text.now) }
{
    push_text(to, false, text)
}

/// Adds the name of a file as it is written before the number of a line: as [`push_escaped`] does, and a colon before a digit as an escape
/// too. So it is seen where the name ends. The error comes when memory runs out.
pub fn push_escaped_name(to: &mut Vec<u8>, name: &[u8]) -> Result<(), NoMemory>
    ensures { OnOk result (to.new.items ≡ to.old.items ++ escaped_name name.now) }
{
    push_text(to, true, name)
}
