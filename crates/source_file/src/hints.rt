//! What may help with a file that could not be linted.
ghost use Rattle.std.specs.Prelude.{◌≡◌, ◌≤◌, length, position};
ghost use Rattle.source_file.specs.Hints.{begins_with, first_statement, has_word, hint_at, hint_of, is_semicolon, line_before, text_of};
ghost use Rattle.source_file.specs.Refusals as refusals;

use crate::line::line_start;
use crate::refusal::Refusal;

/// What may help with a text that can't be read: what is mostly the cause, or else what was expected.
#[derive(Clone, Copy, Debug, PartialEq, Eq)]
pub enum Hint {
    /// The lines after COPY .. FROM STDIN are data.
    CopiedRows,
    /// A command of psql, as a dump's `\restrict`.
    PsqlCommand,
    /// A function's body in BEGIN ATOMIC .. END.
    AtomicBody,
    /// A name with U& before its quotes.
    EscapedName,
    /// A statement, whatever else is there.
    Statement,
    /// The end of a quoted piece or of a comment.
    End,
    /// Text in UTF-8.
    Utf8,
}

impl Hint {
    /// What to do.
    pub fn text(&self) -> &'static str
        ensures { result.now ≡ text_of self.now }
    {
        match self {
            Hint::CopiedRows => {
                "the lines after COPY .. FROM STDIN are data, not SQL: leave them out, as pg_dump --schema-only does"
            }
            Hint::PsqlCommand => {
                "a line that begins with a backslash is a command of psql, not SQL: leave it out"
            }
            Hint::AtomicBody => {
                "a body in BEGIN ATOMIC .. END can't be read: write it as a string, as in AS $$ .. $$"
            }
            Hint::EscapedName => {
                "a name with U& before its quotes can't be read: write its characters themselves"
            }
            Hint::Statement => "write the statement as PostgreSQL takes it",
            Hint::End => "end the quoted piece or the comment in this file",
            Hint::Utf8 => "write the file as UTF-8",
        }
    }
}

/// Whether a text begins with a word of small letters, in any case.
#[tactic(auto, using(crate::proofs::Hinting::begins_more, crate::proofs::Hinting::begins_all, crate::proofs::Hinting::begins_none))]
pub fn begins_with(text: &[u8], word: &[u8]) -> bool
    ensures { result ≡ begins_with text.now word.now }
{
    match (text, word) {
        (_, []) => true,
        ([], _) => false,
        ([byte, text @ ..], [letter, word @ ..]) => {
            byte.to_ascii_lowercase() == *letter && begins_with(text, word)
        }
    }
}

// Whether a text has a word of small letters somewhere, in any case.
#[tactic(auto, using(crate::proofs::Hinting::has_here, crate::proofs::Hinting::has_later, crate::proofs::Hinting::has_at_end))]
fn has_word(text: &[u8], word: &[u8]) -> bool
    ensures { result ≡ has_word text.now word.now }
{
    let mut rest = text;
    'rest: while let [_, more @ ..] = rest {
        if begins_with(rest, word) {
            return true;
        }
        rest = more;
    }
    begins_with(rest, word)
}

// The place of the first semicolon.
fn first_semicolon(text: &[u8]) -> Option<usize>
    ensures { result ≡ position is_semicolon text.now }
{
    text.iter().position(|byte| *byte == b';')
}

// The statement that begins a text, up to the first semicolon.
fn first_statement(text: &[u8]) -> &[u8]
    ensures { result.now ≡ first_statement text.now }
{
    match first_semicolon(text) {
        None => text,
        Some(end) => &text[..end],
    }
}

// The line before that of a place; nothing at the first line.
fn line_before(text: &[u8], at: usize) -> &[u8]
    requires { at ≤ length text.now }
    ensures { result.now ≡ line_before text.now at }
{
    let start = line_start(text, at);
    if start == 0 {
        return &[];
    }
    &text[line_start(text, start - 1)..start - 1]
}

// The hint for what can't be read from a place on, where something else is expected.
#[tactic(auto, using(crate::proofs::Feeds::rest_whole), unfolding(crate::specs::Hints::hint_at))]
fn hint_at(text: &[u8], at: usize, expected: Hint) -> Hint
    requires { at ≤ length text.now }
    ensures { result ≡ hint_at text.now at expected }
{
    if has_word(line_before(text, at), b"from stdin") {
        return Hint::CopiedRows;
    }
    let rest = &text[at..];
    if begins_with(rest, b"\\") {
        return Hint::PsqlCommand;
    }
    let statement = first_statement(rest);
    if has_word(statement, b"begin atomic") {
        return Hint::AtomicBody;
    }
    if has_word(statement, b"u&\"") {
        return Hint::EscapedName;
    }
    expected
}

/// What may help with a file that could not be linted, by its text at the place of the fault.
pub fn hint_for(text: &str, refusal: &Refusal) -> Option<Hint>
    requires { refusals.place_of refusal.now ≤ length text.now }
    ensures { result ≡ hint_of text.now refusal.now }
{
    match refusal {
        Refusal::Unterminated { at } => {
            Some(hint_at(text.as_bytes(), at.raw() as usize, Hint::End))
        }
        Refusal::Syntax { at } => {
            Some(hint_at(text.as_bytes(), at.raw() as usize, Hint::Statement))
        }
        Refusal::NotUtf8 { .. } => Some(Hint::Utf8),
        Refusal::Missing | Refusal::Unreadable | Refusal::TooLong => None,
    }
}
