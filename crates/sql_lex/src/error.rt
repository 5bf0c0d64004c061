//! Why a text has no list of tokens.

use std::alloc::AllocFailed;
use thiserror::Error;

/// Why the lexer gives no tokens.
#[derive(Clone, Copy, Debug, PartialEq, Eq, Error)]
pub enum LexError {
    /// The quoted token or the comment that begins at this byte never closes.
    #[error("unterminated at {at}")]
    Unterminated { at: u32 },
    /// Memory ran out.
    #[error("out of memory")]
    NoMemory,
}

impl<T: Drop> From<AllocFailed<T>> for LexError {
    ghost use Rattle.std.specs.Prelude.{◌≡◌};
    ghost use Rattle.sql_lex.specs.declared.error.LexError.TheVariants.{NoMemory};

    ghost from_gives = { λ _ e. e ≡ NoMemory };

    fn from(_failed: AllocFailed<T>) -> LexError {
        LexError::NoMemory
    }
}
