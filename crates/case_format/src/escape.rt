//! Lines with escapes.

use crate::fault::Fault;

/// What was read before the next byte of a line.
#[derive(Clone, Copy)]
enum Seen {
    Plain,
    Backslash,
    Hex,
    HexDigit(u8),
}

fn digit(byte: u8) -> Option<u8> {
    match byte {
        b'0'..=b'9' => Some(byte - b'0'),
        b'a'..=b'f' => Some(byte - b'a' + 10),
        b'A'..=b'F' => Some(byte - b'A' + 10),
        _ => None,
    }
}

fn put(into: &mut Vec<u8>, byte: u8) -> Result<Seen, Fault> {
    into.push(byte)?;
    Ok(Seen::Plain)
}

fn escaped(into: &mut Vec<u8>, byte: u8) -> Result<Seen, Fault> {
    match byte {
        b'r' => put(into, b'\r'),
        b'n' => put(into, b'\n'),
        b't' => put(into, b'\t'),
        b'\\' => put(into, b'\\'),
        b'x' => Ok(Seen::Hex),
        _ => Err(Fault::Escape),
    }
}

fn step(into: &mut Vec<u8>, seen: Seen, byte: u8) -> Result<Seen, Fault> {
    match seen {
        Seen::Plain => {
            if byte == b'\\' {
                Ok(Seen::Backslash)
            } else {
                put(into, byte)
            }
        }
        Seen::Backslash => escaped(into, byte),
        Seen::Hex => match digit(byte) {
            Some(high) => Ok(Seen::HexDigit(high)),
            None => Err(Fault::Escape),
        },
        Seen::HexDigit(high) => match digit(byte) {
            Some(low) => put(into, high.wrapping_mul(16) | low),
            None => Err(Fault::Escape),
        },
    }
}

fn add_escaped(into: &mut Vec<u8>, line: &str) -> Result<bool, Fault> {
    let mut seen = Seen::Plain;
    for byte in line.bytes() {
        seen = step(into, seen, byte)?;
    }
    match seen {
        Seen::Plain => Ok(true),
        Seen::Backslash => Ok(false),
        _ => Err(Fault::Escape),
    }
}

/// Adds the bytes of a line of a text or an output, and answers whether a line feed follows them. Used by tests only; no
/// contract.
pub(crate) fn add_line(into: &mut Vec<u8>, line: &str) -> Result<bool, Fault> {
    match line.strip_prefix("\\ ") {
        Some(rest) => add_escaped(into, rest),
        None => {
            into.extend_from_slice(line.as_bytes())?;
            Ok(true)
        }
    }
}
