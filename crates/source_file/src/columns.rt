//! The columns that a piece of a text takes in a terminal.
ghost use Rattle.std.specs.Prelude.{◌≡◌, ◌*◌, ◌≤◌, length};
ghost use Rattle.source_file.specs.Columns.{columns_of, width_of};

use unicode_width::UnicodeWidthChar;

// The columns of a tab.
const TAB: usize = 4;

// The columns of an escape, as of `\u{9b}` and of `\u{202e}`.
const SHORT_ESCAPE: usize = 6;

const LONG_ESCAPE: usize = 8;

// The columns of a character, as it is shown.
fn columns(character: char) -> usize
    ensures value { result ≡ columns_of character }
    ensures few { result ≤ 8 }
{
    match character {
        '\t' => TAB,
        '\r' => 0,
        '\u{80}'..='\u{9f}' => SHORT_ESCAPE,
        '\u{202a}'..='\u{202e}' | '\u{2066}'..='\u{2069}' => LONG_ESCAPE,
        _ => character.width().unwrap_or(1),
    }
}

/// How many columns a piece takes as `push_shown` shows it.
pub fn width(piece: &str) -> usize
    requires { length piece.now ≤ 4294967295 }
    ensures value { result ≡ width_of piece.now }
    ensures few { result ≤ 8 * length piece.now }
{
    let mut total = 0;
    for character in piece.chars() {
        total += columns(character);
    }
    total
}
