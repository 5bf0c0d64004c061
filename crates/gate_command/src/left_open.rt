//! Files that end inside a transaction.
ghost use Rattle.std.specs.Prelude.{◌≡◌, ◌<◌, ◌^◌, All, IfOk, MatchOption, Some, length, slice_get};
ghost use Rattle.gate_report.specs.migration_gate.Verdict.{texts_of};
ghost use Rattle.gate_command.specs.Open.{AllEndOutside, IsFirstOpen, TellsOpen};

use gate_report::{GateFile, LintError, ends_in_transaction, parse};
use refused_word::NoMemory;
use std::alloc::Global;

// Whether a text that has a tree ends inside a transaction.
fn is_open(alloc: Global, text: &str) -> Result<bool, NoMemory>
    ensures { IfOk result (TellsOpen text.now) }
{
    match parse(alloc, text) {
        Ok(file) => Ok(ends_in_transaction(&file, false)),
        Err(LintError::NoMemory) => Err(NoMemory),
        Err(_) => Ok(false),
    }
}

// The text of file `i`.
fn text_of<'t>(files: &[GateFile<'t>], i: usize) -> &'t str
    requires { i < length files.now }
    ensures { slice_get (texts_of files.now) i ≡ Some result.now }
{
    files[i].text
}

/// The number of the first file that ends inside a transaction. The error comes when memory runs out.
pub(crate) fn first_open(alloc: Global, files: &[GateFile<'_>]) -> Result<Option<u32>, NoMemory>
    requires { length files.now < 2 ^ 32 }
    ensures { IfOk result (λ first. MatchOption first (AllEndOutside (texts_of files.now)) (IsFirstOpen (texts_of files.now))) }
{
    let count = files.len() as u32;
    for file in 0..count {
        if is_open(alloc, text_of(files, file as usize))? {
            return Ok(Some(file));
        }
    }
    Ok(None)
}
