//! Why a run makes nothing, or stops.
ghost use Rattle.std.specs.Prelude.{◌≡◌};
ghost use Rattle.fix_asked.specs.Failures as spec;

use config_file::{LoadError, Stop};
use fix_run::FixStop;

/// Why a run makes nothing, or stops.
#[derive(Debug, Drop)]
pub enum Failure {
    /// A stop that every program has.
    Stop(Stop),
    /// The words are refused. This line says why, with its line feed.
    Words(Vec<u8>),
    /// The configuration is refused. This line says why, with its line feed.
    Config(Vec<u8>),
    /// The write of a file failed. This line names it, with its line feed.
    File(Vec<u8>),
}

impl Failure {
    /// The exit status of the program.
    pub fn code(&self) -> u8
        ensures { result ≡ spec.code_of self.now }
    {
        match self {
            Failure::Stop(stop) => stop.code(),
            Failure::Words(_) | Failure::Config(_) => 2,
            Failure::File(_) => 6,
        }
    }

    /// The line that is written to the error sink, with its line feed.
    pub fn line(&self) -> &[u8]
        ensures { result.now ≡ spec.line_of self.now }
    {
        match self {
            Failure::Stop(stop) => stop.line().as_bytes(),
            Failure::Words(line) | Failure::Config(line) | Failure::File(line) => line.as_slice(),
        }
    }
}

/// The failure of a run that stops.
pub(crate) fn stopped(stop: FixStop) -> Failure
    ensures { result ≡ spec.failure_by stop }
{
    match stop {
        FixStop::Any(stop) => Failure::Stop(stop),
        FixStop::File(line) => Failure::File(line),
    }
}

/// The failure of a run that has no configuration.
pub(crate) fn failure_of(error: LoadError) -> Failure
    ensures { result ≡ spec.failure_of error }
{
    match error {
        LoadError::Refused(line) => Failure::Config(line),
        LoadError::NoMemory => Failure::Stop(Stop::NoMemory),
    }
}
