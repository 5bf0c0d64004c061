//! Why a file could not be linted.
ghost use Rattle.std.specs.Prelude.{◌≡◌};
ghost use Rattle.source_file.specs.Refusals.{has_place, message_of, name_of, place_of};

use text_pos::TextSize;

/// Why a file could not be linted. The places are bytes of the file, counted from 0.
#[derive(Clone, Copy, Debug, PartialEq, Eq)]
pub enum Refusal {
    /// There is no file of this name.
    Missing,
    /// The file could not be opened, or a read failed.
    Unreadable,
    /// The file is not UTF-8, for the first time at this place.
    NotUtf8 { at: TextSize },
    /// The file has 2^32 bytes or more.
    TooLong,
    /// A quoted piece or a comment that begins at this place does not end.
    Unterminated { at: TextSize },
    /// The statement that begins at this place has no form.
    Syntax { at: TextSize },
}

impl Refusal {
    /// A name for the kind, as rules have them.
    pub fn name(&self) -> &'static str
        ensures { result.now ≡ name_of self.now }
    {
        match self {
            Refusal::Missing => "missing-file",
            Refusal::Unreadable => "unreadable-file",
            Refusal::NotUtf8 { .. } => "not-utf8",
            Refusal::TooLong => "text-too-long",
            Refusal::Unterminated { .. } => "unterminated",
            Refusal::Syntax { .. } => "syntax-error",
        }
    }

    /// What is wrong.
    pub fn message(&self) -> &'static str
        ensures { result.now ≡ message_of self.now }
    {
        match self {
            Refusal::Missing => "there is no such file",
            Refusal::Unreadable => "the file can't be read",
            Refusal::NotUtf8 { .. } => "the file is not UTF-8",
            Refusal::TooLong => "the file has 2^32 bytes or more",
            Refusal::Unterminated { .. } => "what begins here does not end",
            Refusal::Syntax { .. } => "the statement that begins here can't be read",
        }
    }

    /// Whether it has a place in the text of the file. Of the others no text was read.
    pub fn has_place(&self) -> bool
        ensures { result ≡ has_place self.now }
    {
        match self {
            Refusal::NotUtf8 { .. } | Refusal::Unterminated { .. } | Refusal::Syntax { .. } => true,
            Refusal::Missing | Refusal::Unreadable | Refusal::TooLong => false,
        }
    }

    /// Its place, or the start of the file.
    pub fn place(&self) -> TextSize
        ensures { result ≡ place_of self.now }
    {
        match self {
            Refusal::NotUtf8 { at } | Refusal::Unterminated { at } | Refusal::Syntax { at } => *at,
            Refusal::Missing | Refusal::Unreadable | Refusal::TooLong => TextSize::new(0),
        }
    }
}
