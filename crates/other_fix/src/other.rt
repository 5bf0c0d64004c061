//! A fix beside another one.

use lint_base::{Rule, TextSize};

/// A fix that is not made, since another one changes the same bytes of a text and comes first.
#[derive(Clone, Copy, Debug, PartialEq, Eq)]
pub struct OtherFix {
    /// Where its report begins, in bytes of the text.
    pub at: TextSize,
    /// Its rule.
    pub rule: Rule,
    /// The rule of the fix that comes first.
    pub first: Rule,
}
