//! Why a table of cases is refused.

use std::alloc::{AllocError, AllocFailed};
use std::io;
use text_pos::NoMemory;

/// Why a table of cases is not run to its end.
#[derive(Drop)]
pub enum Fault {
    NoMemory,
    Print,
    NoTitle,
    NoDashes,
    NoStatus,
    Escape,
    Status,
    Unended,
}

impl Fault {
    /// What is printed of it. Used by tests only; no contract.
    pub fn as_str(&self) -> &'static str {
        match self {
            Fault::NoMemory => "out of memory",
            Fault::Print => "the output could not be written",
            Fault::NoTitle => "a case begins with a line `# TITLE`",
            Fault::NoDashes => "a text ends with a line `---` or `===`",
            Fault::NoStatus => "an output ends with a line `status N`",
            Fault::Escape => "a backslash is followed by r, n, t, a backslash, or x and two digits",
            Fault::Status => "a status is `status N` or `status N LINE`",
            Fault::Unended => "the last case has no line `status N`",
        }
    }
}

impl From<AllocError> for Fault {
    fn from(_error: AllocError) -> Fault {
        Fault::NoMemory
    }
}

impl<T: Drop> From<AllocFailed<T>> for Fault {
    fn from(_failed: AllocFailed<T>) -> Fault {
        Fault::NoMemory
    }
}

impl From<NoMemory> for Fault {
    fn from(_error: NoMemory) -> Fault {
        Fault::NoMemory
    }
}

impl From<io::Error> for Fault {
    fn from(_error: io::Error) -> Fault {
        Fault::Print
    }
}
