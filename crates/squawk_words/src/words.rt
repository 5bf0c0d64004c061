//! The words after the program's name.
ghost use Rattle.std.specs.Prelude.{◌≡◌, ◌<◌, ℕ, List, [], ◌∷◌, ◌++◌, length, map, string_bytes, is_ok, if◌then◌else◌, Some, slice_get, IsTrue, ◌↔◌};

use lint_base::NoMemory;
use std::alloc::Global;
use std::marker::Model;

/// A list of words, in the order in which they were pushed.
#[derive(Debug, Drop)]
pub struct Words {
    alloc: Global,
    items: Vec<String>,
}

impl Model for Words {
    ghost Value = { List (List ℕ) };

    ghost view = { λ w. map string_bytes w.items.items };
}

impl Words {
    /// No words. It takes no memory.
    pub fn new(alloc: Global) -> Words
        ensures { result ≡ [] }
    {
        Words {
            alloc,
            items: Vec::new(alloc),
        }
    }

    /// Adds a copy of a word at the end. After a refusal the words are as before.
    pub fn push(&mut self, w: &str) -> Result<(), NoMemory>
        ensures { self.new ≡ (if is_ok result then self.old ++ w.now ∷ [] else self.old) }
    {
        match String::from_str(self.alloc, w) {
            Ok(text) => match self.items.push(text) {
                Ok(()) => Ok(()),
                Err(_) => Err(NoMemory),
            },
            Err(_) => Err(NoMemory),
        }
    }

    /// How many words there are.
    pub fn len(&self) -> usize
        ensures { result ≡ length self.now }
    {
        self.items.len()
    }

    /// Whether there is no word.
    pub fn is_empty(&self) -> bool
        ensures { IsTrue result ↔ (self.now ≡ []) }
    {
        self.items.is_empty()
    }

    /// The word at a place, counted from 0.
    pub fn get(&self, i: usize) -> &str
        requires { i < length self.now }
        ensures { slice_get self.now i ≡ Some result.now }
    {
        self.items[i].as_str()
    }

    /// The words as a slice.
    pub(crate) fn as_slice(&self) -> &[String]
        ensures { map string_bytes result.now ≡ self.now }
    {
        self.items.as_slice()
    }
}
