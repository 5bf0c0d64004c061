//! A text that is put together piece by piece.

ghost use Rattle.std.specs.Prelude.{◌≡◌, ◌++◌, ◌↔◌, [], true, false, string_bytes, IfOk, IsSome, OnOk};

use crate::fault::Fault;
use std::alloc::Global;
use std::fmt::{Debug, Display, Write};
use text_pos::TextRange;

/// A text, as far as it was put together. Where memory runs out it is short from then on, and is not given out any more. So
/// what puts it together has no errors to pass up.
#[derive(Drop)]
pub struct TextBuilder {
    alloc: Global,
    text: String,
    is_short: bool,
}

impl TextBuilder {
    /// An empty text.
    pub fn new(alloc: Global) -> TextBuilder
        ensures empty { string_bytes result.text ≡ [] }
        ensures whole { result.is_short ≡ false }
    {
        TextBuilder {
            alloc,
            text: String::new(alloc),
            is_short: false,
        }
    }

    /// Where its memory comes from.
    pub fn alloc(&self) -> Global
        ensures { result ≡ self.now.alloc }
    {
        self.alloc
    }

    /// The text, unless it is short.
    pub fn text(&self) -> Option<&str>
        ensures { IsSome result ↔ self.now.is_short ≡ false }
    {
        if self.is_short {
            return None;
        }
        Some(self.text.as_str())
    }

    /// The text, unless it is short: then it is `Fault::NoMemory`.
    pub fn finish(self) -> Result<String, Fault>
        ensures text { IfOk result (λ text. string_bytes text ≡ string_bytes self.text) }
        ensures whole { OnOk result (self.is_short ≡ false) }
    {
        if self.is_short {
            return Err(Fault::NoMemory);
        }
        Ok(self.text)
    }

    /// Makes it short.
    pub fn fail(&mut self)
        ensures { self.new.is_short ≡ true }
    {
        self.is_short = true;
    }

    /// Adds a piece.
    pub fn add(&mut self, piece: &str)
        ensures grown { self.new.is_short ≡ false → string_bytes self.new.text ≡ string_bytes self.old.text ++ piece.now }
        ensures stays { self.old.is_short ≡ true → self.new.is_short ≡ true }
    {
        if self.text.push_str(piece).is_err() {
            self.fail();
        }
    }

    /// Adds a piece where it is so.
    pub fn push_if(&mut self, is_so: bool, piece: &str)
        ensures grown { self.new.is_short ≡ false → is_so ≡ true → string_bytes self.new.text ≡ string_bytes self.old.text ++ piece.now }
        ensures stays { self.old.is_short ≡ true → self.new.is_short ≡ true }
    {
        if is_so {
            self.add(piece);
        }
    }

    /// Adds the separator where a text comes before it.
    pub fn gap(&mut self, separator: &str)
        ensures { self.old.is_short ≡ true → self.new.is_short ≡ true }
    {
        let is_first = self.text.is_empty();
        self.push_if(!is_first, separator);
    }

    /// Adds a word, after a blank where a text comes before it.
    pub fn word(&mut self, word: &str)
        ensures { self.old.is_short ≡ true → self.new.is_short ≡ true }
    {
        self.gap(" ");
        self.add(word);
    }

    /// Adds a value after the label, as it is shown to a programmer.
    pub fn debug<T: Debug>(&mut self, label: &str, value: &T)
        ensures { self.old.is_short ≡ true → self.new.is_short ≡ true }
    {
        if write!(self.text, "{label}{value:?}").is_err() {
            self.fail();
        }
    }

    /// Adds a value after the label, as it is shown to a user.
    pub fn display<T: Display>(&mut self, label: &str, value: &T)
        ensures { self.old.is_short ≡ true → self.new.is_short ≡ true }
    {
        if write!(self.text, "{label}{value}").is_err() {
            self.fail();
        }
    }

    /// Adds where a range begins and ends, in bytes, after the label.
    pub fn range(&mut self, label: &str, range: TextRange)
        ensures { self.old.is_short ≡ true → self.new.is_short ≡ true }
    {
        self.display(label, &range.start().raw());
        self.display("..", &range.end().raw());
    }
}
