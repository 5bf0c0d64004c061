//! How the run of a program ends that lints one text.
ghost use Rattle.std.specs.Prelude.{◌≡◌};
ghost use Rattle.squawk_run.specs.Statuses.{code_of};

use crate::stop::Stop;

/// How the run of a program ends that lints one text. The places are bytes of the input, counted from 0.
#[derive(Clone, Copy, Debug, PartialEq, Eq)]
pub enum Status {
    /// The input was linted, and nothing was reported.
    Clean,
    /// The input was linted, and something was reported.
    Found,
    /// The words after the program's name are not accepted. Nothing was read.
    BadArguments,
    /// The input is not UTF-8.
    NotUtf8,
    /// The input has 2^32 bytes or more.
    TooLong,
    /// A quoted piece or a comment that begins at this place does not end.
    Unterminated { at: u32 },
    /// The statement that begins at this place has no form.
    Syntax { at: u32 },
    /// A read failed.
    ReadFault,
    /// A write of what the program says of the text failed.
    WriteFault,
    /// Memory ran out.
    NoMemory,
}

impl Status {
    /// The exit status of the program.
    pub fn code(&self) -> u8
        ensures { result ≡ code_of self.now }
    {
        match self {
            Status::Clean => 0,
            Status::Found => 1,
            Status::BadArguments => 2,
            Status::NotUtf8 => 3,
            Status::TooLong | Status::Unterminated { .. } | Status::Syntax { .. } => 4,
            Status::ReadFault => 5,
            Status::WriteFault => 6,
            Status::NoMemory => 7,
        }
    }
}

/// The status of a run that was stopped.
impl From<Stop> for Status {
    ghost use Rattle.std.specs.Prelude.{◌≡◌};
    ghost use Rattle.squawk_run.specs.Statuses.{of_stop};

    ghost from_gives = { λ stop status. status ≡ of_stop stop };

    fn from(stop: Stop) -> Status {
        match stop {
            Stop::BadArguments => Status::BadArguments,
            Stop::NotUtf8 => Status::NotUtf8,
            Stop::TooLong => Status::TooLong,
            Stop::ReadFault => Status::ReadFault,
            Stop::WriteFault => Status::WriteFault,
            Stop::NoMemory => Status::NoMemory,
        }
    }
}
