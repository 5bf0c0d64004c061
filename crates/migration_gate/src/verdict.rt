//! What a gate answers.

use squawk_linter::{Rule, Work};

/// A work, and the number of its file, counted from 0.
#[derive(Clone, Copy, Debug, PartialEq, Eq)]
pub struct GateWork {
    pub file: u32,
    pub work: Work,
}

/// Why a file does not pass. The places are bytes of its text, counted from 0.
#[derive(Clone, Copy, Debug, PartialEq, Eq)]
pub enum Why {
    /// A quoted piece or a comment that begins at this place does not end.
    Unterminated { at: u32 },
    /// The statement that begins at this place has no form.
    Syntax { at: u32 },
    /// The first ignore comment begins at this place.
    Ignored { at: u32 },
    /// The text is not plain, as [`is_plain`](lock_machine::is_plain) says.
    NotPlain,
    /// The first report begins at this place, and is of this rule.
    Found { at: u32, rule: Rule },
}

/// What a gate answers for a list of files.
#[derive(Debug, Drop)]
pub enum Verdict {
    /// Every file passes. These are their works, file by file.
    Accepted { works: Vec<GateWork> },
    /// The file of this number, counted from 0, is the first that does not pass.
    Rejected { file: u32, why: Why },
}
