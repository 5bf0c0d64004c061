//! Lines of a text that are no SQL.

ghost use Rattle.std.specs.Prelude.{◌≡◌, ◌<◌, ◌≤◌, ℕ, true, false, length};
ghost use Rattle.psql_text.specs.Lines as spec;

use crate::class::{begins_byte_order_mark, byte};
use crate::command::{is_ending, is_quiet};
use memchr::memchr;

fn starts_line(text: &[u8], at: usize) -> bool
    requires { at ≤ length text.now }
    ensures { result ≡ spec.starts_line text.now at }
{
    at == 0 || byte(text, at - 1) == b'\n' || (at == 3 && begins_byte_order_mark(text))
}

/// Whether a line begins at this place that is a command, and is passed over.
pub fn begins_command(text: &[u8], at: usize) -> bool
    requires { at < length text.now }
    ensures { result ≡ spec.begins_command text.now at }
{
    text[at] == b'\\' && starts_line(text, at) && is_quiet(&text[at + 1..])
}

/// Whether a command is at this place that ends the statement before it.
pub fn begins_ending(text: &[u8], at: usize) -> bool
    requires { at < length text.now }
    ensures { result ≡ spec.begins_ending text.now at }
{
    text[at] == b'\\' && is_ending(&text[at + 1..])
}

/// The end of the line on which this place is: its line feed, or the end of the text.
pub fn line_end(text: &[u8], at: usize) -> usize
    requires { at ≤ length text.now }
    ensures { spec.IsLineEnd text.now at result }
{
    match memchr(b'\n', &text[at..]) {
        Some(len) => at + len,
        None => text.len(),
    }
}

fn is_ended(text: &[u8], at: usize) -> bool
    ensures { result ≡ spec.is_ended text.now at }
{
    at >= text.len() || text[at] == b'\n'
}

fn is_end_mark(text: &[u8], at: usize) -> bool
    requires { at ≤ length text.now }
    ensures { result ≡ spec.is_end_mark text.now at }
{
    byte(text, at) == b'\\'
        && byte(text, at + 1) == b'.'
        && (is_ended(text, at + 2) || (byte(text, at + 2) == b'\r' && is_ended(text, at + 3)))
}

fn leads_to_end(text: &[u8], at: usize) -> bool
    requires { at < length text.now }
    ensures { result ≡ spec.leads_to_end text.now at }
{
    text[at] == b'\n' && is_end_mark(text, at + 1)
}

/// The first line feed from this place on after which the line `\.` comes, or the end of the text.
fn last_feed(text: &[u8], from: usize) -> usize
    requires { from ≤ length text.now }
    ensures within { (from ≤ result) × (result ≤ length text.now) }
    ensures none { (n : ℕ) → from ≤ n → n < result → spec.leads_to_end text.now n ≡ false }
    ensures found { result < length text.now → spec.leads_to_end text.now result ≡ true }
{
    let mut at = from;
    while at < text.len() && !leads_to_end(text, at) {
        at += 1;
    }
    at
}

/// The end of the data after the line feed at this place: that of the first line that is `\.`, or the end of the text.
pub fn data_end(text: &[u8], feed: usize) -> usize
    requires { feed ≤ length text.now }
    ensures { spec.IsDataEnd text.now feed result }
{
    let last = last_feed(text, feed);
    if last < text.len() {
        line_end(text, last + 1)
    } else {
        text.len()
    }
}
