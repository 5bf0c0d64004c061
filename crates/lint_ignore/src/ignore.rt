//! What an ignore comment says.

use lint_base::RuleSet;
use sql_tree::TextRange;

/// What an ignore comment speaks of.
#[derive(Clone, Copy, Debug, PartialEq, Eq)]
pub enum IgnoreKind {
    /// The whole text.
    File,
    /// The line on which its names begin, and the next one.
    Line,
}

/// An ignore comment.
#[derive(Debug, Drop)]
pub struct Ignore {
    /// What follows `squawk-ignore` or `squawk-ignore-file` in the comment's body, in bytes of the text.
    pub range: TextRange,
    /// The rules that it names, with what they stand for.
    pub violation_names: RuleSet,
    /// Whether it names nothing at all: nothing but white space follows.
    pub ignore_all: bool,
    /// What it speaks of.
    pub kind: IgnoreKind,
}

/// A name in an ignore comment that names a rule.
#[derive(Debug, Drop)]
pub struct IgnorePiece {
    /// The name, without white space round it, in bytes of the text.
    pub range: TextRange,
    /// The rule, with what it stands for.
    pub rules: RuleSet,
    /// The number of its ignore comment, counted from 0.
    pub ignore: usize,
}
