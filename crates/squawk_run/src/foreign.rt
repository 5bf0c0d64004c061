//! Words that name an option which a program does not take.

ghost use Rattle.std.specs.Prelude.{◌≡◌, map};
ghost use Rattle.std.specs.List.{list_any};
ghost use Rattle.std.specs.Str.{bytes_eq};
ghost use Rattle.squawk_run.specs.ForeignWords as spec;

use squawk_words::{Words, after_dashes, name_in};

/// Whether a name is one of these.
fn is_among(names: &[&str], name: &str) -> bool
    ensures { result ≡ list_any (λ n. bytes_eq n.now name.now) names.now }
{
    names.iter().any(|n| *n == name)
}

/// Whether a word is an option of one of these names.
fn is_foreign_word(names: &[&str], word: &str) -> bool
    ensures { result ≡ spec.is_foreign_word (map (λ n. n.now) names.now) word.now }
{
    match after_dashes(word) {
        Some(rest) => is_among(names, name_in(rest)),
        None => false,
    }
}

/// Whether some word is an option of one of these names, with a value after `=` or without.
pub fn has_foreign_word(words: &Words, names: &[&str]) -> bool
    ensures { result ≡ spec.has_foreign_word (map (λ n. n.now) names.now) words.now }
{
    for i in 0..words.len() {
        if is_foreign_word(names, words.get(i)) {
            return true;
        }
    }
    false
}
