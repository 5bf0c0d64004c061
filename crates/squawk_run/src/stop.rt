//! The ways to end that all programs have.

ghost use Rattle.std.specs.Prelude.{◌≡◌};
ghost use Rattle.squawk_run.specs.Stops.{code_of, line_of};

/// Why a run ends before its answer is written, whatever the answer is.
#[derive(Clone, Copy, Debug, PartialEq, Eq)]
pub enum Stop {
    /// The words after the program's name are not accepted. Nothing was read.
    BadArguments,
    /// The input is not UTF-8.
    NotUtf8,
    /// The input has 2^32 bytes or more.
    TooLong,
    /// A read failed.
    ReadFault,
    /// A write of the answer failed.
    WriteFault,
    /// Memory ran out.
    NoMemory,
}

impl Stop {
    /// The exit status of the program.
    pub fn code(&self) -> u8
        ensures { result ≡ code_of self.now }
    {
        match self {
            Stop::BadArguments => 2,
            Stop::NotUtf8 => 3,
            Stop::TooLong => 4,
            Stop::ReadFault => 5,
            Stop::WriteFault => 6,
            Stop::NoMemory => 7,
        }
    }

    /// The line that is written to the error sink, with its line feed.
    pub fn line(&self) -> &'static str
        ensures { result.now ≡ line_of self.now }
    {
        match self {
            Stop::BadArguments => "error: bad arguments\n",
            Stop::NotUtf8 => "error: input is not UTF-8\n",
            Stop::TooLong => "error: text too long\n",
            Stop::ReadFault => "error: read failed\n",
            Stop::WriteFault => "error: write failed\n",
            Stop::NoMemory => "error: out of memory\n",
        }
    }
}
