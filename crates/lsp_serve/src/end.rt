//! How a server ends.
ghost use Rattle.std.specs.Prelude.{◌≡◌};
ghost use Rattle.lsp_serve.specs.Ends.{code_of, end_of, exit_at, line_of};

use crate::{Fault, FrameError};
use lsp_read::Stage;

/// How a server ends.
#[derive(Clone, Copy, Debug, PartialEq, Eq)]
pub enum End {
    /// The client asked it to exit, in good order only after it asked it to shut down.
    Exited { in_order: bool },
    /// The input ended, and the client had not asked it to exit.
    EndOfInput,
    /// The input does not go on as a message.
    BadFrame(Fault),
    /// The input ends within a message.
    CutOff,
    /// A read failed.
    ReadFault,
    /// A write failed.
    WriteFault,
    /// Memory ran out.
    NoMemory,
}

impl End {
    /// The exit status of the program. The Language Server Protocol 3.17 asks for 0 after a shutdown and for 1 without one.
    pub fn code(&self) -> u8
        ensures { result ≡ code_of self.now }
    {
        match self {
            End::Exited { in_order: true } => 0,
            End::Exited { in_order: false } | End::EndOfInput => 1,
            End::BadFrame(Fault::Header) => 3,
            End::BadFrame(Fault::TooLong) | End::CutOff => 4,
            End::ReadFault => 5,
            End::WriteFault => 6,
            End::NoMemory => 7,
        }
    }

    /// The line that is written to the error sink, with its line feed; none where the end is in good order.
    pub fn line(&self) -> &'static str
        ensures { result.now ≡ line_of self.now }
    {
        match self {
            End::Exited { in_order: true } => "",
            End::Exited { in_order: false } => "error: exit without shutdown\n",
            End::EndOfInput => "error: input ended without exit\n",
            End::BadFrame(Fault::Header) => "error: no header\n",
            End::BadFrame(Fault::TooLong) => "error: message too long\n",
            End::CutOff => "error: input ends within a message\n",
            End::ReadFault => "error: read failed\n",
            End::WriteFault => "error: write failed\n",
            End::NoMemory => "error: out of memory\n",
        }
    }
}

// The end that an error of the reader is.
pub(crate) fn end_of(error: FrameError) -> End
    ensures { result ≡ end_of error }
{
    match error {
        FrameError::Fault(fault) => End::BadFrame(fault),
        FrameError::CutOff => End::CutOff,
        FrameError::ReadFault => End::ReadFault,
        FrameError::NoMemory => End::NoMemory,
    }
}

// How a server ends at a stage, if it does.
pub(crate) fn exit_at(stage: Stage) -> Option<End>
    ensures { result ≡ exit_at stage }
{
    match stage {
        Stage::Fresh | Stage::Running | Stage::Down => None,
        Stage::Gone { in_order } => Some(End::Exited { in_order }),
    }
}
