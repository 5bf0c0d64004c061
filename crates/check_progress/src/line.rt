//! The line.
ghost use Rattle.std.specs.Prelude.{◌≡◌, IfOk};
ghost use Rattle.check_progress.specs.Lines.{progress_line};

use report_lines::{NoMemory, push, push_number};
use std::alloc::Global;

/// What writes over the line that no more files are to come.
pub(crate) const CLEARED: &[u8] = b"\r\x1b[K";

/// The line after so many of all files, over the one before it. The error comes when memory runs out.
pub(crate) fn progress_line(alloc: Global, done: usize, all: usize) -> Result<Vec<u8>, NoMemory>
    ensures { IfOk result (λ line. line.items ≡ progress_line done all) }
{
    let mut line = Vec::new(alloc);
    push(&mut line, b"\r")?;
    push_number(&mut line, done)?;
    push(&mut line, b" of ")?;
    push_number(&mut line, all)?;
    push(&mut line, b" files")?;
    Ok(line)
}
