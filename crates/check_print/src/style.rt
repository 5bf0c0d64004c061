//! How findings are written.

use check_words::Format;

/// How findings are written.
#[derive(Clone, Copy, Debug, PartialEq, Eq)]
pub struct Style {
    /// The format.
    pub format: Format,
    /// Whether the text format is painted.
    pub color: bool,
    /// Whether the findings are all that is written: no line that counts them all.
    pub quiet: bool,
    /// Whether the reports of each rule and hazard are counted, in the formats that are lines for people: not in `json`, `sarif` and `gitlab`.
    pub statistics: bool,
}
