//! Whether what an edit puts into a text joins the words beside it.
ghost use Rattle.std.specs.Prelude.{◌≡◌};
ghost use Rattle.std.specs.List.{list_all};
ghost use Rattle.fix_edit.specs.sql_token.Token as token;
ghost use Rattle.fix_choice.specs.Fits as spec;

use fix_edit::{Edit, Fix};

// Whether a word goes on over this byte.
fn is_word(byte: u8) -> bool
    ensures { result ≡ token.is_word byte }
{
    byte.is_ascii_alphanumeric() || byte == b'_' || byte == b'$' || byte >= 128
}

// Whether a byte of a word is at this place.
fn is_word_at(text: &str, place: usize) -> bool
    ensures { result ≡ spec.is_word_at text.now place }
{
    match text.as_bytes().get(place) {
        Some(byte) => is_word(*byte),
        None => false,
    }
}

// Whether a byte of a word is right before this place.
fn is_word_before(text: &str, place: usize) -> bool
    ensures { result ≡ spec.is_word_before text.now place }
{
    place > 0 && is_word_at(text, place - 1)
}

// Whether an edit inserts, or replaces a range that no byte of a word is beside.
fn joins_no_word(text: &str, edit: &Edit) -> bool
    ensures { result ≡ spec.joins_no_word text.now edit.now }
{
    let start = edit.text_range.start().raw() as usize;
    let end = edit.text_range.end().raw() as usize;
    start == end || (!is_word_before(text, start) && !is_word_at(text, end))
}

/// Whether no edit of a fix joins words.
pub fn join_no_word(text: &str, fix: &Fix) -> bool
    ensures { result ≡ list_all (spec.joins_no_word text.now) fix.now.edits }
{
    fix.edits.iter().all(|edit| joins_no_word(text, edit))
}
