//! The line that a run writes to the error sink.
ghost use Rattle.std.specs.Prelude.{OnOk};
ghost use Rattle.std.specs.Io.KnownBytes.{Appends};
ghost use Rattle.devices.specs.Faults.{Rose, HasCause};
ghost use Rattle.devices.specs.Parts.{AppendsPart};
ghost use Rattle.squawk_run.specs.Lines.{numbered};
ghost use Rattle.squawk_run.specs.Statuses as statuses;
ghost use Rattle.squawk_run.specs.Stops.{line_of};

use crate::status::Status;
use crate::stop::Stop;
use devices::{Failed, Sink, write_all};
use itoa::Buffer;

fn write_numbered<E: Sink>(err: &mut E, text: &[u8], number: u64) -> Result<(), Failed>
    ensures whole { OnOk result (Appends (E.held err.old) (E.held err.new) (numbered text.now number)) }
    ensures part { AppendsPart (E.held err.old) (E.held err.new) (numbered text.now number) }
    ensures cause { HasCause (E.faults err.old) (E.faults err.new) result }
{
    let mut buffer = Buffer::new();
    write_all(err, text)?;
    write_all(err, buffer.format(number).as_bytes())?;
    write_all(err, b"\n")?;
    Ok(())
}

/// Writes a line, which has its line feed.
pub fn say_line<E: Sink>(err: &mut E, line: &str)
    ensures part { AppendsPart (E.held err.old) (E.held err.new) line.now }
    ensures whole { ¬ (Rose (E.faults err.old) (E.faults err.new)) → Appends (E.held err.old) (E.held err.new) line.now }
{
    let _ = write_all(err, line.as_bytes());
}

/// Writes a line of a text and a count, to which it adds the line feed.
pub fn say_count<E: Sink>(err: &mut E, text: &str, count: u64)
    ensures part { AppendsPart (E.held err.old) (E.held err.new) (numbered text.now count) }
    ensures whole { ¬ (Rose (E.faults err.old) (E.faults err.new)) → Appends (E.held err.old) (E.held err.new) (numbered text.now count) }
{
    let _ = write_numbered(err, text.as_bytes(), count);
}

/// Writes a line of a text and a place, to which it adds the line feed.
pub fn say_line_at<E: Sink>(err: &mut E, text: &str, at: u32)
    ensures part { AppendsPart (E.held err.old) (E.held err.new) (numbered text.now at) }
    ensures whole { ¬ (Rose (E.faults err.old) (E.faults err.new)) → Appends (E.held err.old) (E.held err.new) (numbered text.now at) }
{
    say_count(err, text, u64::from(at))
}

/// Writes the line of a stop.
pub fn say_stop<E: Sink>(err: &mut E, stop: Stop)
    ensures part { AppendsPart (E.held err.old) (E.held err.new) (line_of stop) }
    ensures whole { ¬ (Rose (E.faults err.old) (E.faults err.new)) → Appends (E.held err.old) (E.held err.new) (line_of stop) }
{
    say_line(err, stop.line())
}

/// Writes the line of a status, which is empty for `Clean` and `Found`.
pub fn say<E: Sink>(err: &mut E, status: &Status)
    ensures part { AppendsPart (E.held err.old) (E.held err.new) (statuses.line_of status.now) }
    ensures whole { ¬ (Rose (E.faults err.old) (E.faults err.new))
        → Appends (E.held err.old) (E.held err.new) (statuses.line_of status.now) }
{
    match status {
        Status::Clean | Status::Found => say_line(err, ""),
        Status::Unterminated { at } => say_line_at(err, "error: unterminated at ", *at),
        Status::Syntax { at } => say_line_at(err, "error: syntax at ", *at),
        Status::BadArguments => say_stop(err, Stop::BadArguments),
        Status::NotUtf8 => say_stop(err, Stop::NotUtf8),
        Status::TooLong => say_stop(err, Stop::TooLong),
        Status::ReadFault => say_stop(err, Stop::ReadFault),
        Status::WriteFault => say_stop(err, Stop::WriteFault),
        Status::NoMemory => say_stop(err, Stop::NoMemory),
    }
}
