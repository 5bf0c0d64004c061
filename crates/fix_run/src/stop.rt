//! Why a run stops.
ghost use Rattle.std.specs.Prelude.{◌≡◌, ◌<◌, IfOk, length};
ghost use Rattle.fix_run.specs.Stops as spec;

use fix_output::{FixedFile, NoMemory};
use fix_words::{Stop, push};
use gate_files::push_escaped;
use std::alloc::Global;

/// Why a run stops.
#[derive(Debug, Drop)]
pub enum FixStop {
    /// For a reason that every program has.
    Any(Stop),
    /// The write of a file failed. This line names it, with its line feed.
    File(Vec<u8>),
}

// The line about a file whose write failed.
fn failed_line(alloc: Global, file: &FixedFile) -> Result<Vec<u8>, NoMemory>
    ensures { IfOk result (λ line. line.items ≡ spec.failed_line file.now.name) }
{
    let mut line = Vec::new(alloc);
    push(&mut line, b"error: ")?;
    push_escaped(&mut line, file.name.as_str().as_bytes())?;
    push(&mut line, b": write failed\n")?;
    Ok(line)
}

/// The stop of a run in which the write of the file of this number failed.
pub(crate) fn failed_at(alloc: Global, files: &[FixedFile], number: usize) -> FixStop
    requires { number < length files.now }
    ensures { spec.IsFailedAt files.now number result }
{
    match failed_line(alloc, &files[number]) {
        Ok(line) => FixStop::File(line),
        Err(NoMemory) => FixStop::Any(Stop::NoMemory),
    }
}
