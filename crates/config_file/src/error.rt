//! Why a run has no configuration.
ghost use Rattle.config_file.specs.Loaded.{IsRefusal};

use report_lines::NoMemory;

/// Why a run has no configuration.
#[derive(Debug, Drop)]
pub enum LoadError {
    /// The file is refused. This line says why, with its line feed.
    Refused(Vec<u8>),
    /// Memory ran out.
    NoMemory,
}

/// The error with a line, if there was memory for it.
pub fn refused(line: Result<Vec<u8>, NoMemory>) -> LoadError
    ensures { IsRefusal line result }
{
    match line {
        Ok(line) => LoadError::Refused(line),
        Err(NoMemory) => LoadError::NoMemory,
    }
}
