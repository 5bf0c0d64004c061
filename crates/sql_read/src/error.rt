//! Why a text is not read.

use sql_tree::NoMemory;
use thiserror::Error;

/// Why a text has no answer.
#[derive(Clone, Copy, Debug, PartialEq, Eq, Drop, Error)]
pub enum LintError {
    /// The text has 2^32 bytes or more.
    #[error("text too long")]
    TooLong,
    /// A quoted token or a comment begins at this byte and never closes.
    #[error("unterminated at {at}")]
    Unterminated { at: u32 },
    /// The first statement that is not sound or has no form begins at this byte.
    #[error("syntax at {at}")]
    Syntax { at: u32 },
    /// Memory ran out.
    #[error("out of memory")]
    NoMemory,
}
