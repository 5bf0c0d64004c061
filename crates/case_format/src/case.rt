//! One case, read line by line.

ghost use Rattle.std.specs.Prelude.{◌≡◌, ◌↔◌, [], IfOk, IsTrue, string_bytes, true};

use crate::escape::add_line;
use crate::fault::Fault;
use crate::report::Answer;
use std::alloc::Global;

/// What the next line of a case is part of.
#[derive(Clone, Copy, PartialEq, Eq)]
enum Part {
    Title,
    Words,
    Text,
    Output,
}

/// A case, as far as its lines were taken.
#[derive(Drop)]
pub struct Case {
    alloc: Global,
    part: Part,
    feed: bool,
    pub title: String,
    pub words: Vec<String>,
    pub text: Vec<u8>,
    pub wanted: Answer,
}

impl Case {
    /// A case with no line.
    pub fn new(alloc: Global) -> Case
        ensures part { result.part ≡ Part.Title }
        ensures title { string_bytes result.title ≡ [] }
        ensures words { result.words.items ≡ [] }
        ensures text { result.text.items ≡ [] }
    {
        Case {
            alloc,
            part: Part::Title,
            feed: false,
            title: String::new(alloc),
            words: Vec::new(alloc),
            text: Vec::new(alloc),
            wanted: Answer::new(alloc),
        }
    }

    /// Whether no line of it was taken.
    pub fn is_empty(&self) -> bool
        ensures { IsTrue result ↔ self.now.part ≡ Part.Title }
    {
        self.part == Part::Title
    }

    fn take_title(&mut self, line: &str) -> Result<(), Fault> {
        if line.is_empty() || line.starts_with("//") {
            return Ok(());
        }
        match line.strip_prefix("# ") {
            Some(title) => {
                self.title.push_str(title)?;
                self.part = Part::Words;
                Ok(())
            }
            None => Err(Fault::NoTitle),
        }
    }

    fn push_word(&mut self, word: &str) -> Result<(), Fault> {
        self.words.push(String::from_str(self.alloc, word)?)?;
        Ok(())
    }

    fn take_words(&mut self, line: &str) -> Result<(), Fault> {
        if let Some(word) = line.strip_prefix("$= ") {
            return self.push_word(word);
        }
        match line.strip_prefix("$ ") {
            Some(words) => {
                for word in words.split_whitespace() {
                    self.push_word(word)?;
                }
                Ok(())
            }
            None => {
                self.part = Part::Text;
                self.take_text(line)
            }
        }
    }

    fn end_line(&mut self) -> Result<(), Fault> {
        if self.feed {
            self.text.push(b'\n')?;
        }
        Ok(())
    }

    fn take_text(&mut self, line: &str) -> Result<(), Fault> {
        if line == "---" {
            self.part = Part::Output;
            return Ok(());
        }
        if line == "===" {
            self.part = Part::Output;
            self.end_line()?;
            self.wanted.out.extend_from_slice(self.text.as_slice())?;
            return Ok(());
        }
        if line.starts_with("# ") || line.starts_with("status ") {
            return Err(Fault::NoDashes);
        }
        self.end_line()?;
        self.feed = add_line(&mut self.text, line)?;
        Ok(())
    }

    fn take_output(&mut self, line: &str) -> Result<bool, Fault> {
        if line.starts_with("# ") {
            return Err(Fault::NoStatus);
        }
        match line.strip_prefix("status ") {
            Some(status) => {
                self.wanted.take_status(status)?;
                Ok(true)
            }
            None => {
                if add_line(&mut self.wanted.out, line)? {
                    self.wanted.out.push(b'\n')?;
                }
                Ok(false)
            }
        }
    }

    /// Takes the next line, and answers whether it is the last one of the case. `NoTitle`, `NoDashes`, `NoStatus`,
    /// `Status` and `Escape` are faults of that line. Used by tests only.
    pub fn take_line(&mut self, line: &str) -> Result<bool, Fault>
        ensures { IfOk result (λ is_whole. is_whole ≡ true → self.old.part ≡ Part.Output) }
    {
        match self.part {
            Part::Title => self.take_title(line)?,
            Part::Words => self.take_words(line)?,
            Part::Text => self.take_text(line)?,
            Part::Output => return self.take_output(line),
        }
        Ok(false)
    }
}
