//! What is found of hazards.

use crate::hazard::Hazard;
use lint_base::{Text, TextRange};

/// A part of a text that is a hazard.
#[derive(Debug, Drop, PartialEq, Eq)]
pub struct Finding {
    /// The hazard.
    pub hazard: Hazard,
    /// Where it is, in bytes of the text.
    pub range: TextRange,
    /// What happens.
    pub message: Text,
    /// What else is to be known.
    pub note: Option<Text>,
    /// What can be done instead.
    pub help: Option<Text>,
}
