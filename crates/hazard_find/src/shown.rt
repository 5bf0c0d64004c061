//! Words that a text shows outside of comments.

ghost use Rattle.std.specs.Prelude.{◌≡◌, slice_index};
ghost use Rattle.lint_ignore.specs.sql_token.Token.{is_word};
ghost use Rattle.hazard_find.specs.Shown as spec;

/// Where a byte of a text is.
#[derive(Clone, Copy)]
pub(crate) enum Place {
    /// Outside of comments.
    Code,
    /// In a comment that ends with its line.
    Line,
    /// Behind the mark that opens a comment.
    Opened,
    /// In a comment that a mark ends.
    Block,
    /// In a comment of a comment, or behind it: nothing is seen from there on.
    Nested,
}

fn is_code(place: Place) -> bool
    ensures { result ≡ spec.is_code place }
{
    matches!(place, Place::Code)
}

fn after_code(before: u8, byte: u8) -> Place
    ensures { result ≡ spec.after_code before byte }
{
    if before == b'-' && byte == b'-' {
        Place::Line
    } else if before == b'/' && byte == b'*' {
        Place::Opened
    } else {
        Place::Code
    }
}

fn after_line(byte: u8) -> Place
    ensures { result ≡ spec.after_line byte }
{
    if byte == b'\n' {
        Place::Code
    } else {
        Place::Line
    }
}

fn after_block(before: u8, byte: u8) -> Place
    ensures { result ≡ spec.after_block before byte }
{
    if before == b'*' && byte == b'/' {
        Place::Code
    } else if before == b'/' && byte == b'*' {
        Place::Nested
    } else {
        Place::Block
    }
}

/// Where the byte after `byte` is.
#[tactic(auto, unfolding(crate::specs::Shown::place_after))]
fn place_after(place: Place, before: u8, byte: u8) -> Place
    ensures { result ≡ spec.place_after place before byte }
{
    match place {
        Place::Code => after_code(before, byte),
        Place::Line => after_line(byte),
        Place::Opened => Place::Block,
        Place::Block => after_block(before, byte),
        Place::Nested => Place::Nested,
    }
}

/// Whether a word goes on over a byte.
fn is_word(byte: u8) -> bool
    ensures { result ≡ is_word byte }
{
    byte.is_ascii_alphanumeric() || byte == b'_' || byte == b'$' || byte >= 128
}

/// The byte of this number, or 0 past the end.
fn byte_at(bytes: &[u8], i: usize) -> u8
    ensures { result ≡ slice_index bytes.now i }
{
    if i < bytes.len() { bytes[i] } else { 0 }
}

/// Whether the bytes begin with a word, whatever its ASCII case.
#[tactic(auto, unfolding(crate::specs::Shown::begins_with))]
fn begins_with(word: &[u8], bytes: &[u8]) -> bool
    ensures { result ≡ spec.begins_with word.now bytes.now }
{
    let end = word.len().min(bytes.len());
    bytes[..end].eq_ignore_ascii_case(word)
}

/// Whether a word comes first behind a byte, as a whole.
fn comes_first(word: &[u8], before: u8, bytes: &[u8]) -> bool
    ensures { result ≡ spec.comes_first word.now before bytes.now }
{
    !is_word(before) && begins_with(word, bytes) && !is_word(byte_at(bytes, word.len()))
}

/// Whether a word comes first outside of comments.
fn shows_first(word: &[u8], place: Place, before: u8, bytes: &[u8]) -> bool
    ensures { result ≡ spec.shows_first word.now place before bytes.now }
{
    is_code(place) && comes_first(word, before, bytes)
}

/// Whether a text has a word outside of comments.
pub(crate) fn shows(word: &[u8], text: &[u8]) -> bool
    ensures { result ≡ spec.shows word.now text.now }
{
    let mut place = Place::Code;
    let mut before = 0;
    for i in 0..text.len() {
        if shows_first(word, place, before, &text[i..]) {
            return true;
        }
        let byte = text[i];
        place = place_after(place, before, byte);
        before = byte;
    }
    false
}

/// A name without the double quotes at its ends.
#[tactic(auto, unfolding(crate::specs::Shown::bare))]
pub(crate) fn bare(name: &[u8]) -> &[u8]
    ensures { result.now ≡ spec.bare name.now }
{
    if byte_at(name, 0) != b'"' {
        return name;
    }
    if name.len() < 2 {
        return &[];
    }
    &name[1..name.len() - 1]
}
