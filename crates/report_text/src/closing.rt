//! The last line, which counts.
ghost use Rattle.std.specs.Prelude.{◌≡◌, ◌++◌, OnOk};
ghost use Rattle.report_text.specs.Closing.{closing, counted, ending, findings, found_in};

use crate::layout::push_number;
use crate::paint::push;
use lint_base::NoMemory;

/// What was found in files.
#[derive(Clone, Copy, Debug, PartialEq, Eq)]
pub struct Counts {
    /// Reports of the linter.
    pub issues: usize,
    /// Files that could not be linted.
    pub errors: usize,
    /// Files of which there is a report or an error.
    pub marked: usize,
    /// All files.
    pub files: usize,
}

// The ending of a word for a number of things.
fn ending(number: usize) -> &'static str
    ensures { result.now ≡ ending number }
{
    if number == 1 { "" } else { "s" }
}

// Adds a number of things: `1 file`, `4 files`.
#[tactic(auto, unfolding(crate::specs::Closing::counted))]
fn push_counted(to: &mut Vec<u8>, number: usize, word: &[u8]) -> Result<(), NoMemory>
    ensures { OnOk result (to.new.items ≡ to.old.items ++ counted number word.now) }
{
    push_number(to, number)?;
    push(to, b" ")?;
    push(to, word)?;
    push(to, ending(number).as_bytes())
}

// Adds the numbers of reports and of errors.
#[tactic(auto, unfolding(crate::specs::Closing::findings))]
fn push_findings(to: &mut Vec<u8>, counts: Counts) -> Result<(), NoMemory>
    ensures { OnOk result (to.new.items ≡ to.old.items ++ findings counts) }
{
    if counts.errors == 0 {
        return push_counted(to, counts.issues, b"issue");
    }
    if counts.issues == 0 {
        return push_counted(to, counts.errors, b"error");
    }
    push_counted(to, counts.issues, b"issue")?;
    push(to, b" and ")?;
    push_counted(to, counts.errors, b"error")
}

// Adds the number of files of which there is something, where there are any.
#[tactic(auto, unfolding(crate::specs::Closing::found_in))]
fn push_found_in(to: &mut Vec<u8>, counts: Counts) -> Result<(), NoMemory>
    ensures { OnOk result (to.new.items ≡ to.old.items ++ found_in counts) }
{
    if counts.marked == 0 {
        return Ok(());
    }
    push_number(to, counts.marked)?;
    push(to, b" of ")
}

/// Adds the last line: `Found 3 issues and 1 error in 2 of 4 files`. The error comes when memory runs out.
pub fn push_closing(to: &mut Vec<u8>, counts: Counts) -> Result<(), NoMemory>
    ensures { OnOk result (to.new.items ≡ to.old.items ++ closing counts) }
{
    push(to, b"Found ")?;
    push_findings(to, counts)?;
    push(to, b" in ")?;
    push_found_in(to, counts)?;
    push_counted(to, counts.files, b"file")?;
    push(to, b"\n")
}
