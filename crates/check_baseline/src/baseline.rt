//! A baseline, ready for looking up reports.
ghost use Rattle.std.specs.Prelude.{◌≡◌, ℕ, List, IfErr, IfOk, None, OnOk, true, map, not, string_bytes, if◌then◌else◌};
ghost use Rattle.std.specs.HashSet.{contains_text};
ghost use Rattle.std.specs.List.{list_all, list_any};
ghost use Rattle.std.specs.Str.{bytes_eq};
ghost use Rattle.check_baseline.specs.Known.{IsBaselineOf, IsNoBaseline, bad_line, bad_line_from, first_word, is_digit, is_fingerprint, is_line, knows, lines_of};

use checked_file::NoMemory;
use std::alloc::{AllocError, Global};
use std::collections::HashSet;

/// The fingerprints of a baseline.
#[derive(Drop)]
pub struct Baseline {
    pub(crate) fingerprints: HashSet<String>,
}

/// Why no baseline was read.
#[derive(Clone, Copy, Debug, PartialEq, Eq)]
pub enum BaselineError {
    /// The line of this number, counted from 1, is not a line of a baseline, and those before it are.
    Line(usize),
    /// Memory ran out.
    NoMemory,
}

// What comes before the first blank of a line.
fn first_word(line: &str) -> &str
    ensures { result.now ≡ first_word line.entry.now }
{
    match line.split_once(' ') {
        Some((word, _)) => word,
        None => line,
    }
}

// The lines of a text.
fn lines_of(alloc: Global, text: &str) -> Result<Vec<&str>, AllocError>
    ensures { IfOk result (λ lines. map (λ s. s.now) lines.items ≡ lines_of text.now) }
{
    text.split('\n').collect(alloc)
}

// A copy of the first word of a line.
fn word_of(alloc: Global, line: &str) -> Result<String, AllocError>
    ensures { IfOk result (λ word. string_bytes word ≡ first_word line.now) }
{
    String::from_str(alloc, first_word(line))
}

// Puts a word in.
fn insert(words: &mut HashSet<String>, word: String) -> Result<(), NoMemory>
    ensures { OnOk result ((print : List ℕ) → contains_text words.new print ≡ (if bytes_eq (string_bytes word) print then true else contains_text words.old print)) }
{
    words.insert(word)?;
    Ok(())
}

// The first words of lines.
fn first_words(alloc: Global, lines: &[&str]) -> Result<HashSet<String>, NoMemory>
    ensures { IfOk result (λ words. (print : List ℕ) → contains_text words print ≡ list_any (λ line. bytes_eq (first_word line.now) print) lines.now) }
{
    let mut words = HashSet::new(alloc);
    for line in lines {
        insert(&mut words, word_of(alloc, line)?)?;
    }
    Ok(words)
}

// Whether a byte is a digit of base 16, as fingerprints have them.
fn is_digit(byte: u8) -> bool
    ensures { result ≡ is_digit byte }
{
    (48 <= byte && byte <= 57) || (97 <= byte && byte <= 102)
}

// Whether each byte of a word is such a digit.
fn has_digits_alone(word: &str) -> bool
    ensures { result ≡ list_all is_digit word.now }
{
    word.bytes().all(|byte| is_digit(byte))
}

// Whether a word is a SHA-256 in base 16.
fn is_fingerprint(word: &str) -> bool
    ensures { result ≡ is_fingerprint word.now }
{
    word.len() == 64 && has_digits_alone(word)
}

// Whether a line is not empty, no comment, and does not begin with a fingerprint.
fn is_bad(line: &str) -> bool
    ensures { result ≡ not (is_line line.now) }
{
    !(line.is_empty() || line.starts_with("#") || is_fingerprint(first_word(line)))
}

// The number of the first of these lines that is not a line of a baseline, counted from 1.
fn bad_line(lines: &[&str]) -> Option<usize>
    ensures { result ≡ bad_line_from 1 (map (λ s. s.now) lines.now) }
{
    let mut number = 1;
    for line in lines {
        if is_bad(line) {
            return Some(number);
        }
        number += 1;
    }
    None
}

// The lines of a text, where each is one of a baseline.
fn sound_lines(alloc: Global, text: &str) -> Result<Vec<&str>, BaselineError>
    ensures lines { IfOk result (λ lines. map (λ s. s.now) lines.items ≡ lines_of text.now) }
    ensures sound { IfOk result (λ _. bad_line text.now ≡ None) }
    ensures refused { IfErr result (IsNoBaseline text.now) }
{
    let Ok(lines) = lines_of(alloc, text) else {
        return Err(BaselineError::NoMemory);
    };
    match bad_line(lines.as_slice()) {
        None => Ok(lines),
        Some(number) => Err(BaselineError::Line(number)),
    }
}

impl Baseline {
    /// Reads a baseline. Each line of it is empty, a comment after `#`, or begins with the fingerprint of a report, which is its first
    /// word. The error `NoMemory` comes when memory runs out, whatever the text is.
    pub fn read(alloc: Global, text: &str) -> Result<Baseline, BaselineError>
        ensures read { IfOk result (IsBaselineOf text.now) }
        ensures refused { IfErr result (IsNoBaseline text.now) }
    {
        let lines = sound_lines(alloc, text)?;
        match first_words(alloc, lines.as_slice()) {
            Ok(fingerprints) => Ok(Baseline { fingerprints }),
            Err(NoMemory) => Err(BaselineError::NoMemory),
        }
    }

    /// Whether a fingerprint is in it.
    pub fn knows(&self, print: &str) -> bool
        ensures { result ≡ knows self.now print.now }
    {
        self.fingerprints.contains(print)
    }
}
