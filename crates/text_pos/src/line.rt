//! The lines of a text.
ghost use Rattle.std.specs.Prelude.{◌≡◌, ◌<◌, ◌≤◌, ◌^◌, ℕ, List, IfOk, count_by, length, nat_lt};

use crate::memory::NoMemory;
use crate::size::TextSize;
use memchr::memchr_iter;
use std::alloc::Global;
use std::marker::Model;

/// Where the lines of a text end, for looking up the line of a place.
///
/// Making it takes time in the length of the text, and a look-up in the logarithm of its lines.
#[derive(Debug, Drop)]
pub struct LineIndex {
    feeds: Vec<u32>,
}

impl Model for LineIndex {
    ghost use Rattle.std.specs.Prelude.{List, ℕ};
    ghost use Rattle.text_pos.specs.Line.{IsLineIndex};

    ghost Value = { List ℕ };

    ghost view = { λ index. index.feeds.items };

    ghost invariant = { λ index. IsLineIndex index.feeds.items };
}

impl LineIndex {
    ghost use Rattle.text_pos.specs.Line.{line_feeds, line_of, line_start};

    /// The index of a text. The error comes when memory runs out.
    pub fn new(alloc: Global, text: &str) -> Result<LineIndex, NoMemory>
        requires { length text.now < 2 ^ 32 }
        ensures { IfOk result (λ index. index ≡ line_feeds text.now) }
    {
        let mut feeds = Vec::new(alloc);
        for at in memchr_iter(b'\n', text.as_bytes()) {
            feeds.push(at as u32)?;
        }
        Ok(LineIndex { feeds })
    }

    /// The line of a place, counted from 0: how many line feeds come before it.
    pub fn line(&self, at: TextSize) -> u32
        ensures counted { result ≡ count_by (λ feed. nat_lt feed at) self.now }
        ensures line { (text : List ℕ) → self.now ≡ line_feeds text → result ≡ line_of text at }
    {
        let at = at.raw();
        self.feeds.partition_point(|feed| *feed < at) as u32
    }

    /// Where the line of a place begins.
    pub fn line_start(&self, at: TextSize) -> TextSize
        ensures { (text : List ℕ) → self.now ≡ line_feeds text → at ≤ length text → result ≡ line_start text at }
    {
        let at = at.raw();
        let line = self.feeds.partition_point(|feed| *feed < at);
        if line == 0 {
            TextSize::new(0)
        } else {
            TextSize::new(self.feeds[line - 1] + 1)
        }
    }
}
