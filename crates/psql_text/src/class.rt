//! Bytes of a text, and their classes.

ghost use Rattle.std.specs.Prelude.{◌≡◌, ◌≢◌, ◌<◌, ◌≤◌, length, slice_index, true};
ghost use Rattle.sql_lex.specs.sql_token.Token as spec;

/// The byte at a place, or 0 past the end.
pub fn byte(z: &[u8], at: usize) -> u8
    ensures value { result ≡ slice_index z.now at }
    ensures within { result ≢ 0 → at < length z.now }
{
    if at < z.len() { z[at] } else { 0 }
}

/// Whether this is white space.
#[inline]
pub fn is_blank(b: u8) -> bool
    ensures { result ≡ spec.is_blank b }
{
    b == b' ' || (9 <= b && b <= 13)
}

/// Whether the text begins with the byte order mark of UTF-8.
pub fn begins_byte_order_mark(z: &[u8]) -> bool
    ensures value { result ≡ spec.begins_byte_order_mark z.now }
    ensures within { result ≡ true → 3 ≤ length z.now }
{
    byte(z, 0) == 0xef && byte(z, 1) == 0xbb && byte(z, 2) == 0xbf
}
