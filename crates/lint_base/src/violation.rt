//! Reports of what breaks a rule.
ghost use Rattle.std.specs.Prelude.{◌≡◌, ◌≤◌};

use crate::fix::Fix;
use crate::rule::Rule;
use crate::text::Text;
use text_pos::{TextRange, TextSize};

/// A report of a part of a text that breaks a rule.
#[derive(Debug, Drop, PartialEq, Eq)]
pub struct Violation {
    /// The rule.
    pub code: Rule,
    /// What is wrong.
    pub message: Text,
    /// Where it is there, in bytes of the text.
    pub text_range: TextRange,
    /// What else is to be known.
    pub note: Option<Text>,
    /// What can be done instead.
    pub help: Option<Text>,
    /// How to mend the text.
    pub fix: Option<Fix>,
}

impl Violation {
    ghost use Rattle.lint_base.specs.Violations.{violation};

    /// A report on a range, without note, help and fix.
    pub fn for_range(code: Rule, message: Text, text_range: TextRange) -> Violation
        ensures { result ≡ violation code message text_range }
    {
        Violation {
            code,
            message,
            text_range,
            note: None,
            help: None,
            fix: None,
        }
    }

    /// A report on a range without the part before `start`, without note, help and fix.
    pub fn for_node(code: Rule, message: Text, start: TextSize, range: TextRange) -> Violation
        requires { (range.start ≤ start) × (start ≤ range.end) }
        ensures { result ≡ violation code message (record { start = start; end = range.end }) }
    {
        Violation::for_range(code, message, TextRange::new(start, range.end()))
    }
}
