//! What becomes of a line.
ghost use Rattle.std.specs.Prelude.{◌≡◌};
ghost use Rattle.text_diff.specs.Script as spec;

/// What becomes of a line.
#[derive(Clone, Copy, Debug, PartialEq, Eq)]
pub enum Mark {
    /// It stays, and is shown.
    Kept,
    /// It stays, and is too far from a change to be shown.
    Hidden,
    /// It is a line of the old text alone.
    Removed,
    /// It is a line of the new text alone.
    Added,
}

impl Mark {
    /// Whether the line is one of the old text.
    pub fn is_old(self) -> bool
        ensures { result ≡ spec.is_old self }
    {
        match self {
            Mark::Added => false,
            Mark::Kept | Mark::Hidden | Mark::Removed => true,
        }
    }

    /// Whether the line is one of the new text.
    pub fn is_new(self) -> bool
        ensures { result ≡ spec.is_new self }
    {
        match self {
            Mark::Removed => false,
            Mark::Kept | Mark::Hidden | Mark::Added => true,
        }
    }

    /// Whether the line is one of one text alone.
    pub fn is_change(self) -> bool
        ensures { result ≡ spec.is_change self }
    {
        match self {
            Mark::Removed | Mark::Added => true,
            Mark::Kept | Mark::Hidden => false,
        }
    }

    /// Whether the line is not shown.
    pub fn is_hidden(self) -> bool
        ensures { result ≡ spec.is_hidden self }
    {
        match self {
            Mark::Hidden => true,
            Mark::Kept | Mark::Removed | Mark::Added => false,
        }
    }
}

/// A line with what becomes of it.
#[derive(Clone, Copy, Debug)]
pub struct Step<'t> {
    /// What becomes of it.
    pub mark: Mark,
    /// The line with its line feed, which the last line of a text may lack.
    pub line: &'t [u8],
}
