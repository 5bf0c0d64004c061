//! Texts on one line.
ghost use Rattle.std.specs.Prelude.{◌≡◌, ◌≤◌, ◌++◌, length, not, vec_capacity, OnOk, OnErr};
ghost use Rattle.std.specs.List.{list_all};
ghost use Rattle.squawk_print.specs.Escaped.{escaped, escaped_byte, letter_of};
ghost use Rattle.lint_base.specs.PlainBytes.{is_plain};
ghost use Rattle.squawk_print.specs.Room.{LacksRoom};

use lint_base::{NoMemory, Text};
use std::simd::prelude::*;

/// How many bytes are looked at at a time.
const LANES: usize = 16;

/// Whether the byte stands for itself.
fn is_plain(byte: u8) -> bool
    ensures { result ≡ is_plain byte }
{
    byte != b'\\' && byte != b'\n' && byte != b'\r' && byte != b'"'
}

fn letter_of(byte: u8) -> u8
    ensures { result ≡ letter_of byte }
{
    match byte {
        b'\n' => b'n',
        b'\r' => b'r',
        _ => byte,
    }
}

fn push_byte(to: &mut Vec<u8>, byte: u8) -> Result<(), NoMemory>
    ensures grown { OnOk result (to.new.items ≡ to.old.items ++ escaped_byte byte) }
    ensures capacity { vec_capacity to.old ≤ vec_capacity to.new }
    ensures full { OnErr result (LacksRoom to.old (escaped_byte byte)) }
{
    if is_plain(byte) {
        to.push(byte)?;
    } else {
        to.extend_from_slice(&[b'\\', letter_of(byte)])?;
    }
    Ok(())
}

fn push_each(to: &mut Vec<u8>, text: &[u8]) -> Result<(), NoMemory>
    ensures grown { OnOk result (to.new.items ≡ to.old.items ++ escaped text.now) }
    ensures capacity { vec_capacity to.old ≤ vec_capacity to.new }
    ensures full { OnErr result (LacksRoom to.old (escaped text.now)) }
{
    for byte in text {
        push_byte(to, *byte)?;
    }
    Ok(())
}

/// Whether one of the bytes does not stand for itself.
fn has_special(bytes: u8x16) -> bool
    ensures { result ≡ not (list_all is_plain bytes) }
{
    let special = bytes.simd_eq(u8x16::splat(b'\\'))
        | bytes.simd_eq(u8x16::splat(b'\n'))
        | bytes.simd_eq(u8x16::splat(b'\r'))
        | bytes.simd_eq(u8x16::splat(b'"'));
    special.any()
}

/// Whether each byte stands for itself. The text has at least as many bytes as are looked at at a time; the last of them are
/// looked at together, whether or not some were before.
fn is_long_plain(text: &[u8]) -> bool
    requires { LANES ≤ length text.now }
    ensures { result ≡ list_all is_plain text.now }
{
    let mut at = 0;
    'looking: while text.len() - at > LANES {
        if has_special(u8x16::from_slice(&text[at..])) {
            return false;
        }
        at += LANES;
    }
    !has_special(u8x16::from_slice(&text[text.len() - LANES..]))
}

/// Whether each byte stands for itself. Most texts are long and all plain.
fn is_all_plain(text: &[u8]) -> bool
    ensures { result ≡ list_all is_plain text.now }
{
    if text.len() < LANES {
        text.iter().all(|byte| is_plain(*byte))
    } else {
        is_long_plain(text)
    }
}

/// Adds a text, with a backslash before each backslash and quote, and `\n` and `\r` for the ends of lines.
#[tactic(auto, using(crate::proofs::Escaping::escaped_plain))]
pub fn push_escaped(to: &mut Vec<u8>, text: &[u8]) -> Result<(), NoMemory>
    ensures grown { OnOk result (to.new.items ≡ to.old.items ++ escaped text.now) }
    ensures capacity { vec_capacity to.old ≤ vec_capacity to.new }
    ensures full { OnErr result (LacksRoom to.old (escaped text.now)) }
{
    if is_all_plain(text) {
        to.extend_from_slice(text)?;
        Ok(())
    } else {
        push_each(to, text)
    }
}

/// Adds a text in the same way, without a look at a text that is known to be plain.
#[tactic(auto, using(crate::proofs::Escaping::escaped_plain))]
pub(crate) fn push_text(to: &mut Vec<u8>, text: &Text) -> Result<(), NoMemory>
    ensures grown { OnOk result (to.new.items ≡ to.old.items ++ escaped text.now) }
    ensures capacity { vec_capacity to.old ≤ vec_capacity to.new }
    ensures full { OnErr result (LacksRoom to.old (escaped text.now)) }
{
    let bytes = text.as_str().as_bytes();
    if text.is_plain() {
        to.extend_from_slice(bytes)?;
        Ok(())
    } else {
        push_escaped(to, bytes)
    }
}
