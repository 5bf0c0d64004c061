//! Why a fix is not made.

use std::alloc::AllocError;
use thiserror::Error;

/// Why a fix is not made in a text.
#[derive(Clone, Copy, Debug, PartialEq, Eq, Error)]
pub enum FixError {
    /// The range of the edit with this number, from 0, leaves the text or cuts a character.
    #[error("bad range in edit {edit}")]
    BadRange { edit: u32 },
    /// The edit with this number, from 0, begins before its predecessor ends.
    #[error("overlap in edit {edit}")]
    Overlap { edit: u32 },
    /// The edited text would have 2^32 bytes or more.
    #[error("text too long")]
    TooLong,
    /// Memory ran out.
    #[error("out of memory")]
    NoMemory,
}

impl From<AllocError> for FixError {
    ghost use Rattle.std.specs.Prelude.{◌≡◌};
    ghost use Rattle.fix_edit.specs.declared.error.FixError.TheVariants.{NoMemory};

    ghost from_gives = { λ _ e. e ≡ NoMemory };

    fn from(_error: AllocError) -> FixError {
        FixError::NoMemory
    }
}
