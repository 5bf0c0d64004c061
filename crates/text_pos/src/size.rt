//! A place in a text, or a length of one, in bytes.
ghost use Rattle.std.specs.Prelude.{◌≡◌, ◌<◌, ◌^◌};

use std::marker::Model;

/// A number of bytes: the place of a byte of a text, counted from 0, or the length of a text.
#[derive(Clone, Copy, Debug, PartialEq, Eq, PartialOrd, Ord)]
pub struct TextSize {
    raw: u32,
}

impl Model for TextSize {
    ghost use Rattle.std.specs.Prelude.{ℕ};

    ghost Value = { ℕ };

    ghost view = { λ size. size.raw };

    ghost inverse = { λ n. record { raw = n } };
}

impl TextSize {
    /// The size of `n` bytes.
    pub fn new(n: u32) -> TextSize
        ensures { result ≡ n }
    {
        TextSize { raw: n }
    }

    /// The number of bytes.
    pub fn raw(self) -> u32
        ensures value { result ≡ self }
        ensures in_range { self < 2 ^ 32 }
    {
        self.raw
    }
}
