//! How a run ends.
ghost use Rattle.std.specs.Prelude.{◌≡◌};
ghost use Rattle.server_command.specs.Outcomes as spec;

use lsp_serve::End;
use refused_word::Stop;

/// Why no linter is chosen in a workspace.
#[derive(Debug, Drop)]
pub enum Refusal {
    /// The words are refused beside its configuration. This line names them, with its line feed.
    Words(Vec<u8>),
    /// Its configuration is refused. This line says why, with its line feed.
    Config(Vec<u8>),
}

/// How a run ends.
#[derive(Debug, Drop)]
pub enum Outcome {
    /// The help was printed.
    Printed,
    /// It served, and this is how that ended.
    Served(End),
    /// The words are refused, and it served nothing. This line names them, with its line feed.
    Refused(Vec<u8>),
    /// A write failed, or memory ran out, and it served nothing.
    Failed(Stop),
}

impl Refusal {
    /// The line that says why, with its line feed.
    pub(crate) fn line(&self) -> &[u8]
        ensures { result.now ≡ spec.refusal_line self.now }
    {
        match self {
            Refusal::Words(line) => line.as_slice(),
            Refusal::Config(line) => line.as_slice(),
        }
    }
}

impl Outcome {
    /// The exit status of the program.
    pub fn code(&self) -> u8
        ensures { result ≡ spec.code_of self.now }
    {
        match self {
            Outcome::Printed => 0,
            Outcome::Served(end) => end.code(),
            Outcome::Refused(_) => 2,
            Outcome::Failed(stop) => stop.code(),
        }
    }

    /// The line that is written to the error sink, with its line feed; none where all is in order.
    pub fn line(&self) -> &[u8]
        ensures { result.now ≡ spec.line_of self.now }
    {
        match self {
            Outcome::Printed => b"",
            Outcome::Served(end) => end.line().as_bytes(),
            Outcome::Refused(line) => line.as_slice(),
            Outcome::Failed(stop) => stop.line().as_bytes(),
        }
    }
}
