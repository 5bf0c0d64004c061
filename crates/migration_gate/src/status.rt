//! How a run ends.
ghost use Rattle.std.specs.Prelude.{◌≡◌};
ghost use Rattle.std.specs.Io.KnownBytes.{Appends};
ghost use Rattle.squawk_run.specs.devices.Faults.{Rose};
ghost use Rattle.squawk_run.specs.devices.Parts.{AppendsPart};
ghost use Rattle.migration_gate.specs.Statuses.{code_of, line_of};

use squawk_run::{Sink, Stop, say_line, say_line_at, say_stop};

/// How a run ends.
#[derive(Clone, Copy, Debug, PartialEq, Eq)]
pub enum GateStatus {
    /// Each file of the bundle passes.
    Accepted,
    /// Some file of the bundle does not pass.
    Rejected,
    /// The words after the program's name are not accepted. Nothing was read.
    BadArguments,
    /// The input is not UTF-8.
    NotUtf8,
    /// The input has 2^32 bytes or more.
    TooLong,
    /// What begins at this byte of the input is no entry of a bundle.
    BadBundle { at: u32 },
    /// A read failed.
    ReadFault,
    /// A write of the printed verdict failed.
    WriteFault,
    /// Memory ran out.
    NoMemory,
}

impl From<Stop> for GateStatus {
    ghost use Rattle.std.specs.Prelude.{◌≡◌};
    ghost use Rattle.migration_gate.specs.Statuses.{status_by};

    ghost from_gives = { λ stop status. status ≡ status_by stop };

    fn from(stop: Stop) -> GateStatus {
        match stop {
            Stop::BadArguments => GateStatus::BadArguments,
            Stop::NotUtf8 => GateStatus::NotUtf8,
            Stop::TooLong => GateStatus::TooLong,
            Stop::ReadFault => GateStatus::ReadFault,
            Stop::WriteFault => GateStatus::WriteFault,
            Stop::NoMemory => GateStatus::NoMemory,
        }
    }
}

impl GateStatus {
    /// The exit status of the program.
    pub fn code(&self) -> u8
        ensures { result ≡ code_of self.now }
    {
        match self {
            GateStatus::Accepted => 0,
            GateStatus::Rejected => 1,
            GateStatus::BadBundle { .. } => 4,
            GateStatus::BadArguments => Stop::BadArguments.code(),
            GateStatus::NotUtf8 => Stop::NotUtf8.code(),
            GateStatus::TooLong => Stop::TooLong.code(),
            GateStatus::ReadFault => Stop::ReadFault.code(),
            GateStatus::WriteFault => Stop::WriteFault.code(),
            GateStatus::NoMemory => Stop::NoMemory.code(),
        }
    }
}

/// Writes the line of a status, which is empty for `Accepted` and `Rejected`. It takes no memory. Where a write fails the sink has the
/// beginning of the line, and nothing else comes of it.
pub fn say<E: Sink>(err: &mut E, status: &GateStatus)
    ensures part { AppendsPart (E.held err.old) (E.held err.new) (line_of status.now) }
    ensures whole { ¬ (Rose (E.faults err.old) (E.faults err.new))
        → Appends (E.held err.old) (E.held err.new) (line_of status.now) }
{
    match status {
        GateStatus::Accepted | GateStatus::Rejected => say_line(err, ""),
        GateStatus::BadBundle { at } => say_line_at(err, "error: bundle at ", *at),
        GateStatus::BadArguments => say_stop(err, Stop::BadArguments),
        GateStatus::NotUtf8 => say_stop(err, Stop::NotUtf8),
        GateStatus::TooLong => say_stop(err, Stop::TooLong),
        GateStatus::ReadFault => say_stop(err, Stop::ReadFault),
        GateStatus::WriteFault => say_stop(err, Stop::WriteFault),
        GateStatus::NoMemory => say_stop(err, Stop::NoMemory),
    }
}
