//! The keywords that statements of SQL are recognized by, and which of them a word is (PostgreSQL manual,
//! appendix C, has all keywords; these are the ones that some form of a statement names).
#![tactic(auto)]

mod case;
mod slots;
mod words;

ghost use Rattle.std.specs.Prelude.{IsTrue, ◌≡◌, ◌<◌, ◌≤◌, ◌+◌, ◌%◌, ◌↔◌, length};
ghost use Rattle.std.specs.Str.{str_eq_ignore_ascii_case};
ghost use Rattle.sql_keyword.specs.Texts.{text};
ghost use Rattle.sql_keyword.specs.declared.words.Keyword.{Keyword};
ghost use Rattle.sql_keyword.specs.Letters.{AreCapitals};
ghost use Rattle.sql_keyword.specs.Slots.{slot, start_of, length_of, text_at, text_in, keyword_in, look_up};
ghost use Rattle.sql_keyword.specs.Find.{keyword_of};

use case::is_same_word;
use slots::{
    BEFORE_LAST_WEIGHT, KEYWORDS, LAST_WEIGHT, LENGTH_WEIGHT, LENGTHS, SECOND_WEIGHT, SHIFTS,
    SLOT_COUNT, STARTS, TEXTS,
};
pub use words::{Keyword, Object, Other, Verb, same_keyword};

/// The shortest keyword has so many letters.
const SHORTEST: usize = 2;

/// The longest keyword has so many letters.
const LONGEST: usize = 15;

/// The place of a letter in the alphabet, counted from 1, in either case.
fn place(letter: u8) -> usize
    ensures { result ≡ letter % 32 }
{
    letter as usize % 32
}

/// The slot of the one keyword that these bytes may be.
#[tactic(auto, unfolding(crate::specs::Slots::slot))]
fn slot_of(bytes: &[u8]) -> usize
    requires { (2 ≤ length bytes.now) × (length bytes.now < 16) }
    ensures slot { result ≡ slot bytes.now }
    ensures within { result < SLOT_COUNT }
{
    let len = bytes.len();
    let first = place(bytes[0]);
    let second = place(bytes[1]);
    let before_last = place(bytes[len - 2]);
    let last = place(bytes[len - 1]);
    (SHIFTS[first] as usize
        + LENGTH_WEIGHT * len
        + SECOND_WEIGHT * second
        + BEFORE_LAST_WEIGHT * before_last
        + LAST_WEIGHT * last)
        % SLOT_COUNT
}

/// Where the text of a slot's keyword begins.
#[tactic(auto, unfolding(crate::specs::Slots::start_of))]
fn start_of(slot: usize) -> u16
    requires { slot < SLOT_COUNT }
    ensures { result ≡ start_of slot }
{
    STARTS[slot]
}

/// How many letters it has, or 0 where no keyword has the slot.
#[tactic(auto, unfolding(crate::specs::Slots::length_of))]
fn length_of(slot: usize) -> u8
    requires { slot < SLOT_COUNT }
    ensures { result ≡ length_of slot }
{
    LENGTHS[slot]
}

/// So many letters of the texts.
#[tactic(auto, unfolding(crate::specs::Slots::text_at))]
fn text_at(start: usize, len: usize) -> &'static [u8]
    requires { start + len ≤ length TEXTS.now }
    ensures { result.now ≡ text_at start len }
{
    &TEXTS[start..start + len]
}

/// The text of a slot's keyword.
fn text_in(slot: usize) -> &'static [u8]
    requires { slot < SLOT_COUNT }
    ensures text { result.now ≡ text_in slot }
    ensures capitals { AreCapitals result.now }
{
    text_at(start_of(slot) as usize, length_of(slot) as usize)
}

/// The keyword of a slot.
#[tactic(auto, unfolding(crate::specs::Slots::keyword_in))]
fn keyword_in(slot: usize) -> Option<Keyword>
    requires { slot < SLOT_COUNT }
    ensures { result ≡ keyword_in slot }
{
    KEYWORDS[slot]
}

/// What the table finds.
#[tactic(auto, unfolding(crate::specs::Slots::look_up))]
fn look_up(bytes: &[u8]) -> Option<Keyword>
    ensures { result ≡ look_up bytes.now }
{
    if bytes.len() < SHORTEST || bytes.len() > LONGEST {
        return None;
    }
    let slot = slot_of(bytes);
    if is_same_word(bytes, text_in(slot)) {
        keyword_in(slot)
    } else {
        None
    }
}

/// The keyword whose text these bytes are, without regard to ASCII case, or none where they are no keyword's. Callers pass
/// a word, and no quoted identifier: quotes are bytes like others, and no keyword has them.
pub fn keyword_of(bytes: &[u8]) -> Option<Keyword>
    ensures value { result ≡ keyword_of bytes.now }
    ensures right { (k : Keyword) → (result ≡ Some k) ↔ IsTrue (str_eq_ignore_ascii_case bytes.now (text k)) }
{
    look_up(bytes)
}
