//! Why a run gives no answer.
ghost use Rattle.std.specs.Prelude.{◌≡◌};
ghost use Rattle.std.specs.Io.KnownBytes.{Appends};
ghost use Rattle.check_command.specs.Failures as spec;
ghost use Rattle.refused_word.specs.devices.Faults.{Rose};
ghost use Rattle.refused_word.specs.devices.Parts.{AppendsPart};

use check_print::{NoMemory, WordFault};
use check_setup::LoadError;
use refused_word::{Sink, Stop, fault_line, write_all};
use std::alloc::Global;

/// Why a run gives no answer.
#[derive(Debug, Drop)]
pub enum Failure {
    /// A stop that every program has.
    Stop(Stop),
    /// A word is refused, the configuration, or the baseline. This line says which and why, with its line feed.
    Refused(Vec<u8>),
}

impl Failure {
    /// The exit status of the program.
    pub fn code(&self) -> u8
        ensures { result ≡ spec.code_of self.now }
    {
        match self {
            Failure::Stop(stop) => stop.code(),
            Failure::Refused(_) => 2,
        }
    }

    /// The line that is written to the error sink, with its line feed.
    pub fn line(&self) -> &[u8]
        ensures { result.now ≡ spec.line_of self.now }
    {
        match self {
            Failure::Stop(stop) => stop.line().as_bytes(),
            Failure::Refused(line) => line.as_slice(),
        }
    }
}

/// Why a run gives no answer that can't read what it needs before its files.
pub(crate) fn failure_of(error: LoadError) -> Failure
    ensures { result ≡ spec.failure_of error }
{
    match error {
        LoadError::Refused(line) => Failure::Refused(line),
        LoadError::NoMemory => Failure::Stop(Stop::NoMemory),
    }
}

/// Why a run gives no answer of which a word is refused.
pub(crate) fn word_failure(alloc: Global, fault: &WordFault) -> Failure
    ensures { spec.IsWordFailure fault.now result }
{
    match fault_line(alloc, fault) {
        Ok(line) => Failure::Refused(line),
        Err(NoMemory) => Failure::Stop(Stop::NoMemory),
    }
}

/// Writes a line, which has its line feed. A failed write changes nothing else.
pub(crate) fn say<E: Sink>(err: &mut E, line: &[u8])
    ensures part { AppendsPart (E.held err.old) (E.held err.new) line.now }
    ensures whole { ¬ (Rose (E.faults err.old) (E.faults err.new)) → Appends (E.held err.old) (E.held err.new) line.now }
{
    let _ = write_all(err, line);
}
