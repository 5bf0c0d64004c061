//! What of its tokens tells whether a statement is COPY .. FROM STDIN, and where the body of a function ends.

ghost use Rattle.std.specs.Prelude.{◌≡◌, slice_index};
ghost use Rattle.psql_text.specs.Marks as spec;

use crate::class::byte;
use sql_lex::TokKind;

/// What a token is to a statement that may be COPY .. FROM STDIN, or make a function.
#[derive(Clone, Copy)]
pub enum Mark {
    /// The word COPY.
    Copy,
    /// The word FROM.
    From,
    /// The word STDIN.
    Stdin,
    /// The word CREATE.
    Create,
    /// The word OR.
    Or,
    /// The word REPLACE.
    Replace,
    /// The word FUNCTION or PROCEDURE.
    Routine,
    /// The word BEGIN.
    Begin,
    /// The word CASE.
    Case,
    /// The word END.
    End,
    /// The word ATOMIC.
    Atomic,
    /// `(` or `[`
    Opener,
    /// `)` or `]`
    Closer,
    /// `;`
    Semicolon,
    /// A backslash.
    Backslash,
    /// Any other significant token.
    Other,
    /// Blanks or a comment.
    Nothing,
}

impl Mark {
    pub fn is_copy(self) -> bool
        ensures { result ≡ spec.is_copy self }
    {
        matches!(self, Mark::Copy)
    }

    pub fn is_from(self) -> bool
        ensures { result ≡ spec.is_from self }
    {
        matches!(self, Mark::From)
    }

    pub fn is_stdin(self) -> bool
        ensures { result ≡ spec.is_stdin self }
    {
        matches!(self, Mark::Stdin)
    }

    pub fn is_create(self) -> bool
        ensures { result ≡ spec.is_create self }
    {
        matches!(self, Mark::Create)
    }

    pub fn is_or(self) -> bool
        ensures { result ≡ spec.is_or self }
    {
        matches!(self, Mark::Or)
    }

    pub fn is_replace(self) -> bool
        ensures { result ≡ spec.is_replace self }
    {
        matches!(self, Mark::Replace)
    }

    pub fn is_routine(self) -> bool
        ensures { result ≡ spec.is_routine self }
    {
        matches!(self, Mark::Routine)
    }

    pub fn is_begin(self) -> bool
        ensures { result ≡ spec.is_begin self }
    {
        matches!(self, Mark::Begin)
    }

    pub fn is_case(self) -> bool
        ensures { result ≡ spec.is_case self }
    {
        matches!(self, Mark::Case)
    }

    pub fn is_end(self) -> bool
        ensures { result ≡ spec.is_end self }
    {
        matches!(self, Mark::End)
    }

    pub fn is_atomic(self) -> bool
        ensures { result ≡ spec.is_atomic self }
    {
        matches!(self, Mark::Atomic)
    }

    pub fn is_opener(self) -> bool
        ensures { result ≡ spec.is_opener self }
    {
        matches!(self, Mark::Opener)
    }

    pub fn is_closer(self) -> bool
        ensures { result ≡ spec.is_closer self }
    {
        matches!(self, Mark::Closer)
    }

    pub fn is_semicolon(self) -> bool
        ensures { result ≡ spec.is_semicolon self }
    {
        matches!(self, Mark::Semicolon)
    }

    pub fn is_backslash(self) -> bool
        ensures { result ≡ spec.is_backslash self }
    {
        matches!(self, Mark::Backslash)
    }

    pub fn is_nothing(self) -> bool
        ensures { result ≡ spec.is_nothing self }
    {
        matches!(self, Mark::Nothing)
    }
}

#[tactic(auto, unfolding(crate::specs::Marks::block_mark))]
fn block_mark(bytes: &[u8]) -> Mark
    ensures { result ≡ spec.block_mark bytes.now }
{
    if bytes.eq_ignore_ascii_case(b"begin") {
        Mark::Begin
    } else if bytes.eq_ignore_ascii_case(b"case") {
        Mark::Case
    } else if bytes.eq_ignore_ascii_case(b"end") {
        Mark::End
    } else if bytes.eq_ignore_ascii_case(b"atomic") {
        Mark::Atomic
    } else {
        Mark::Other
    }
}

#[tactic(auto, unfolding(crate::specs::Marks::routine_mark))]
fn routine_mark(bytes: &[u8]) -> Mark
    ensures { result ≡ spec.routine_mark bytes.now }
{
    if bytes.eq_ignore_ascii_case(b"create") {
        Mark::Create
    } else if bytes.eq_ignore_ascii_case(b"or") {
        Mark::Or
    } else if bytes.eq_ignore_ascii_case(b"replace") {
        Mark::Replace
    } else if bytes.eq_ignore_ascii_case(b"function") || bytes.eq_ignore_ascii_case(b"procedure") {
        Mark::Routine
    } else {
        block_mark(bytes)
    }
}

#[tactic(auto, unfolding(crate::specs::Marks::word_mark))]
fn word_mark(bytes: &[u8]) -> Mark
    ensures { result ≡ spec.word_mark bytes.now }
{
    if bytes.eq_ignore_ascii_case(b"copy") {
        Mark::Copy
    } else if bytes.eq_ignore_ascii_case(b"from") {
        Mark::From
    } else if bytes.eq_ignore_ascii_case(b"stdin") {
        Mark::Stdin
    } else {
        routine_mark(bytes)
    }
}

fn punct_mark(byte: u8) -> Mark
    ensures { result ≡ spec.punct_mark byte }
{
    match byte {
        b'(' | b'[' => Mark::Opener,
        b')' | b']' => Mark::Closer,
        b';' => Mark::Semicolon,
        _ => Mark::Other,
    }
}

fn other_mark(byte: u8) -> Mark
    ensures { result ≡ spec.other_mark byte }
{
    if byte == b'\\' {
        Mark::Backslash
    } else {
        Mark::Other
    }
}

/// What a token of this kind and of these bytes is.
#[tactic(auto, unfolding(crate::specs::Marks::mark_of))]
pub fn mark_of(kind: TokKind, bytes: &[u8]) -> Mark
    ensures { result ≡ spec.mark_of kind bytes.now }
{
    match kind {
        TokKind::Blank | TokKind::LineComment | TokKind::BlockComment => Mark::Nothing,
        TokKind::Word => word_mark(bytes),
        TokKind::Punct => punct_mark(byte(bytes, 0)),
        TokKind::Other => other_mark(byte(bytes, 0)),
        _ => Mark::Other,
    }
}
