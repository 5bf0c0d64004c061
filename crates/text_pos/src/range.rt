//! A range of a text.
ghost use Rattle.std.specs.Prelude.{◌≡◌, ◌-◌, ◌≤◌, ◌↔◌, IsTrue};
ghost use Rattle.text_pos.specs.Range.{IsOrdered, ContainsRange};

use crate::size::TextSize;
use std::marker::Model;

/// The bytes of a text from a start to before an end that is not below it.
#[derive(Clone, Copy, Debug, PartialEq, Eq)]
pub struct TextRange {
    start: u32,
    end: u32,
}

impl Model for TextRange {
    ghost use Rattle.std.specs.Prelude.{◌≤◌};
    ghost use Rattle.text_pos.specs.Range.{Range};

    ghost Value = { Range };

    ghost view = { λ range. record { start = range.start; end = range.end } };

    ghost invariant = { λ range. range.start ≤ range.end };

    ghost inverse = { λ range. record { start = range.start; end = range.end } };
}

impl TextRange {
    /// The range from `start` to before `end`.
    pub fn new(start: TextSize, end: TextSize) -> TextRange
        requires { start ≤ end }
        ensures { result ≡ record { start = start; end = end } }
    {
        TextRange {
            start: start.raw(),
            end: end.raw(),
        }
    }

    /// The place of the first byte, or of the empty range.
    pub fn start(&self) -> TextSize
        ensures value { result ≡ self.now.start }
        ensures ordered { IsOrdered self.now }
    {
        TextSize::new(self.start)
    }

    /// The place after the last byte.
    pub fn end(&self) -> TextSize
        ensures value { result ≡ self.now.end }
        ensures ordered { IsOrdered self.now }
    {
        TextSize::new(self.end)
    }

    /// How many bytes the range has.
    pub fn len(&self) -> TextSize
        ensures { result ≡ self.now.end - self.now.start }
    {
        TextSize::new(self.end - self.start)
    }

    /// Whether the range has no byte.
    pub fn is_empty(&self) -> bool
        ensures { IsTrue result ↔ (self.now.start ≡ self.now.end) }
    {
        self.start == self.end
    }

    /// Whether the other range lies in this one: it begins no earlier and ends no later.
    pub fn contains_range(&self, other: TextRange) -> bool
        ensures { IsTrue result ↔ ContainsRange self.now other }
    {
        self.start <= other.start && other.end <= self.end
    }
}
