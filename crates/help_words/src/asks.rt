//! What asks for help, or for the version.
ghost use Rattle.std.specs.Prelude.{◌≡◌};
ghost use Rattle.help_words.specs.Help as spec;

use squawk_run::{Words, has_foreign_word};

// Whether one of the words is this one.
fn has_word(words: &Words, wanted: &str) -> bool
    ensures { result ≡ spec.has_word wanted.now words.now }
{
    for i in 0..words.len() {
        if words.get(i) == wanted {
            return true;
        }
    }
    false
}

/// Whether `--help` or `-h` is among the words, wherever it is.
pub fn asks_for_help(words: &Words) -> bool
    ensures { result ≡ spec.asks_for_help words.now }
{
    has_foreign_word(words, &["help"]) || has_word(words, "-h")
}

/// Whether `--version` or `-V` is among the words, wherever it is.
pub fn asks_for_version(words: &Words) -> bool
    ensures { result ≡ spec.asks_for_version words.now }
{
    has_foreign_word(words, &["version"]) || has_word(words, "-V")
}
