//! The parts of a word.
ghost use Rattle.std.specs.Prelude.{◌≡◌, IfOk, map, option_map};
ghost use Rattle.squawk_words.specs.Choices.{items_of};
ghost use Rattle.squawk_words.specs.Words.{after_dashes, begins_with_dash, is_option, name_in, value_in};

use std::alloc::{AllocError, Global};

/// What follows `--` at the start of a word, which may be nothing, or `None` where a word begins otherwise.
pub fn after_dashes(word: &str) -> Option<&str>
    ensures { option_map (λ s. s.now) result ≡ after_dashes word.entry.now }
{
    word.strip_prefix("--")
}

/// Whether a word begins with `-`, as `--` and `-` alone do.
pub fn begins_with_dash(word: &str) -> bool
    ensures { result ≡ begins_with_dash word.now }
{
    match word.as_bytes() {
        [first, ..] => *first == b'-',
        [] => false,
    }
}

/// Whether a word begins with `-` and has more. A word `-` alone is none: it names standard input.
pub fn is_option(word: &str) -> bool
    ensures { result ≡ is_option word.now }
{
    match word.as_bytes() {
        [first, _, ..] => *first == b'-',
        _ => false,
    }
}

/// What comes before the first `=`, or all where there is none. Of a word without its dashes it is the option's name.
pub fn name_in(text: &str) -> &str
    ensures { result.now ≡ name_in text.entry.now }
{
    match text.split_once('=') {
        Some((name, _)) => name,
        None => text,
    }
}

/// What comes after the first `=`, which may be nothing, or `None` where there is no `=`.
pub fn value_in(text: &str) -> Option<&str>
    ensures { option_map (λ s. s.now) result ≡ value_in text.entry.now }
{
    match text.split_once('=') {
        Some((_, value)) => Some(value),
        None => None,
    }
}

/// What is between the commas of a list: one item more than there are commas, and of an empty list the empty item. The error comes when
/// memory runs out.
pub fn items_of(alloc: Global, list: &str) -> Result<Vec<&str>, AllocError>
    ensures { IfOk result (λ items. map (λ s. s.now) items.items ≡ items_of list.now) }
{
    list.split(',').collect(alloc)
}
