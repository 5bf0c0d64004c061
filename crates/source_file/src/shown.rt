//! Texts as they are shown.
ghost use Rattle.std.specs.Prelude.{◌≡◌, ◌<◌, ◌≤◌, ◌++◌, IsTrue, OnOk, get_or};
ghost use Rattle.source_file.specs.Shown.{c1_escape, escape, first_shown, hex_digit, is_c1, is_embedding, is_isolate, more_len, shown, shown_byte};

use text_pos::NoMemory;

// Adds a byte as it is shown.
fn push_byte(to: &mut Vec<u8>, byte: u8) -> Result<(), NoMemory>
    ensures { OnOk result (to.new.items ≡ to.old.items ++ shown_byte byte) }
{
    match byte {
        b'\t' => to.extend_from_slice(b"    ")?,
        b'\r' => {}
        0..=31 => to.extend_from_slice(&[226, 144, 128 + byte])?,
        127 => to.extend_from_slice(&[226, 144, 161])?,
        _ => to.push(byte)?,
    }
    Ok(())
}

// A digit of base 16.
fn hex_digit(n: u8) -> u8
    requires { n < 16 }
    ensures { result ≡ hex_digit n }
{
    if n < 10 { b'0' + n } else { b'a' + (n - 10) }
}

// Adds an escape, by its first digits and its last one.
pub(crate) fn push_escape(to: &mut Vec<u8>, first: &[u8], last: u8) -> Result<(), NoMemory>
    requires { last < 16 }
    ensures { OnOk result (to.new.items ≡ to.old.items ++ escape first.now last) }
{
    to.extend_from_slice(b"\\u{")?;
    to.extend_from_slice(first)?;
    to.push(hex_digit(last))?;
    to.push(b'}')?;
    Ok(())
}

// Whether these bytes are a C1 control character, U+0080 to U+009F.
pub(crate) fn is_c1(a: u8, b: u8) -> bool
    ensures value { result ≡ is_c1 a b }
    ensures range { IsTrue result → (128 ≤ b) × (b ≤ 159) }
{
    a == 0xc2 && 0x80 <= b && b <= 0x9f
}

// Whether these bytes are one of U+202A to U+202E, which turn the direction of a text.
pub(crate) fn is_embedding(a: u8, b: u8, c: u8) -> bool
    ensures value { result ≡ is_embedding a b c }
    ensures range { IsTrue result → (170 ≤ c) × (c ≤ 174) }
{
    a == 0xe2 && b == 0x80 && 0xaa <= c && c <= 0xae
}

// Whether these bytes are one of U+2066 to U+2069, which turn the direction of a text.
pub(crate) fn is_isolate(a: u8, b: u8, c: u8) -> bool
    ensures value { result ≡ is_isolate a b c }
    ensures range { IsTrue result → (166 ≤ c) × (c ≤ 169) }
{
    a == 0xe2 && b == 0x81 && 0xa6 <= c && c <= 0xa9
}

// Adds the escape of a C1 control character, by its second byte.
pub(crate) fn push_c1(to: &mut Vec<u8>, b: u8) -> Result<(), NoMemory>
    requires { (128 ≤ b) × (b ≤ 159) }
    ensures { OnOk result (to.new.items ≡ to.old.items ++ c1_escape b) }
{
    if b < 0x90 {
        push_escape(to, b"8", b - 0x80)
    } else {
        push_escape(to, b"9", b - 0x90)
    }
}

// Adds the character that begins with these bytes, or else the first of them, as it is shown.
fn push_first(to: &mut Vec<u8>, a: u8, b: u8, c: u8) -> Result<(), NoMemory>
    ensures { OnOk result (to.new.items ≡ to.old.items ++ first_shown a b c) }
{
    if is_c1(a, b) {
        return push_c1(to, b);
    }
    if is_embedding(a, b, c) {
        return push_escape(to, b"202", c - 0xa0);
    }
    if is_isolate(a, b, c) {
        return push_escape(to, b"206", c - 0xa0);
    }
    push_byte(to, a)
}

// How many bytes more than one that shows.
pub(crate) fn more_len(a: u8, b: u8, c: u8) -> usize
    ensures value { result ≡ more_len a b c }
    ensures few { result ≤ 2 }
{
    if is_c1(a, b) {
        return 1;
    }
    if is_embedding(a, b, c) || is_isolate(a, b, c) {
        return 2;
    }
    0
}

// A byte of a text, or 0 after its end.
pub(crate) fn byte_at(text: &[u8], at: usize) -> u8
    ensures { result ≡ get_or text.now at 0 }
{
    if at < text.len() { text[at] } else { 0 }
}

/// Adds a piece as it is shown: a tab as four blanks, each other control character of ASCII as its picture, but no carriage return;
/// control characters of C1 and those that turn the direction of a text as escapes, and all else as it is. So no text can steer
/// the terminal.
pub fn push_shown(to: &mut Vec<u8>, piece: &[u8]) -> Result<(), NoMemory>
    ensures { OnOk result (to.new.items ≡ to.old.items ++ shown piece.now) }
{
    let mut at = 0;
    'text: while at < piece.len() {
        let first = byte_at(piece, at);
        let second = byte_at(piece, at + 1);
        let third = byte_at(piece, at + 2);
        push_first(to, first, second, third)?;
        at += 1 + more_len(first, second, third);
    }
    Ok(())
}
