//! Why a run gives no answer.
ghost use Rattle.std.specs.Prelude.{◌≡◌};
ghost use Rattle.gate_command.specs.Failures as spec;

use refused_word::Stop;

/// Why a run gives no answer.
#[derive(Debug, Drop)]
pub enum Failure {
    /// A stop that every program has.
    Stop(Stop),
    /// The words are refused. This line says why, with its line feed.
    Words(Vec<u8>),
}

impl Failure {
    /// The exit status of the program.
    pub fn code(&self) -> u8
        ensures { result ≡ spec.code_of self.now }
    {
        match self {
            Failure::Stop(stop) => stop.code(),
            Failure::Words(_) => 2,
        }
    }

    /// The line that is written to the error sink, with its line feed.
    pub fn line(&self) -> &[u8]
        ensures { result.now ≡ spec.line_of self.now }
    {
        match self {
            Failure::Stop(stop) => stop.line().as_bytes(),
            Failure::Words(line) => line.as_slice(),
        }
    }
}
