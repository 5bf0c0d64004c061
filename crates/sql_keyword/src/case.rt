//! Words without regard to ASCII case.
//!
//! Four letters are compared as one number, and fewer by `&` and not by `&&`, with no jump between them.

ghost use Rattle.std.specs.Prelude.{◌≡◌, ◌+◌, ◌≤◌, length};
ghost use Rattle.std.specs.Bool.{Decides};
ghost use Rattle.std.specs.Char.{eq_ignore_ascii_case};
ghost use Rattle.std.specs.Str.{str_eq_ignore_ascii_case};
ghost use Rattle.sql_keyword.specs.Letters.{IsCapital, AreCapitals, AreSame, AreFourBytes, four_of};

/// All bits of a letter but the one that tells a small letter from a capital one.
const LETTER_BITS: u8 = 0xdf;

/// The same bits of four letters.
const LETTER_BITS_OF_FOUR: u32 = 0xdfdf_dfdf;

/// Whether a byte is a capital letter, or the small letter to it.
fn is_letter(byte: u8, capital: u8) -> bool
    requires { IsCapital capital }
    ensures { result ≡ eq_ignore_ascii_case byte capital }
{
    byte & LETTER_BITS == capital
}

fn are_two_same(word: &[u8], text: &[u8], at: usize) -> bool
    requires within { (at + 2 ≤ length word.now) × (at + 2 ≤ length text.now) }
    requires capitals { AreCapitals text.now }
    ensures { Decides result (AreSame word.now text.now at (at + 2)) }
{
    is_letter(word[at], text[at]) & is_letter(word[at + 1], text[at + 1])
}

/// The first four bytes as one number.
fn first_four(bytes: &[u8]) -> u32
    requires { 4 ≤ length bytes.now }
    ensures value { result ≡ four_of bytes.now }
    ensures bytes { AreFourBytes bytes.now }
{
    u32::from_le_bytes([bytes[0], bytes[1], bytes[2], bytes[3]])
}

fn are_four_same(word: &[u8], text: &[u8], at: usize) -> bool
    requires within { (at + 4 ≤ length word.now) × (at + 4 ≤ length text.now) }
    requires capitals { AreCapitals text.now }
    ensures { Decides result (AreSame word.now text.now at (at + 4)) }
{
    first_four(&word[at..]) & LETTER_BITS_OF_FOUR == first_four(&text[at..])
}

fn are_eight_same(word: &[u8], text: &[u8], at: usize) -> bool
    requires within { (at + 8 ≤ length word.now) × (at + 8 ≤ length text.now) }
    requires capitals { AreCapitals text.now }
    ensures { Decides result (AreSame word.now text.now at (at + 8)) }
{
    are_four_same(word, text, at) & are_four_same(word, text, at + 4)
}

/// Whether all letters of two texts of one length are the same: the last and the first ones, which meet.
fn are_all_same(word: &[u8], text: &[u8]) -> bool
    requires within { (2 ≤ length word.now) × (length word.now ≤ 16) }
    requires lengths { length text.now ≡ length word.now }
    requires capitals { AreCapitals text.now }
    ensures { Decides result (AreSame word.now text.now 0 (length word.now)) }
{
    let len = word.len();
    if len < 4 {
        are_two_same(word, text, len - 2) & are_two_same(word, text, 0)
    } else if len < 8 {
        are_four_same(word, text, len - 4) & are_four_same(word, text, 0)
    } else {
        are_eight_same(word, text, len - 8) & are_eight_same(word, text, 0)
    }
}

/// Whether a word is this text, which has capital letters alone, without regard to ASCII case.
pub fn is_same_word(word: &[u8], text: &[u8]) -> bool
    requires within { (2 ≤ length word.now) × (length word.now ≤ 16) }
    requires capitals { AreCapitals text.now }
    ensures { result ≡ str_eq_ignore_ascii_case word.now text.now }
{
    word.len() == text.len() && are_all_same(word, text)
}
