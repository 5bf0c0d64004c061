//! What is written of accepted files.
ghost use Rattle.std.specs.Prelude.{◌≡◌, ◌<◌, ◌^◌, IfOk, length};
ghost use Rattle.migration_gate.specs.Verdict.{names_of};
ghost use Rattle.gate_report.specs.Accepted.{counted, printed_accepted};

use migration_gate::{GateFile, GateWork, Verdict, print_verdict};
use report_lines::{NoMemory, push, push_number};
use std::alloc::Global;

// The line that counts the files.
fn counted(alloc: Global, count: usize) -> Result<Vec<u8>, NoMemory>
    ensures { IfOk result (λ bytes. bytes.items ≡ counted count) }
{
    let mut to = Vec::new(alloc);
    push(&mut to, b"accepted: ")?;
    push_number(&mut to, count)?;
    push(&mut to, b"\n")?;
    Ok(to)
}

/// What is written of accepted files: how many there are; with `lists` before that a line for each file, and below it one for each work of
/// the file. The error comes when memory runs out.
pub fn print_accepted(
    alloc: Global,
    files: &[GateFile<'_>],
    works: Vec<GateWork>,
    lists: bool,
) -> Result<Vec<u8>, NoMemory>
    requires { length files.now < 2 ^ 32 }
    ensures { IfOk result (λ bytes. bytes.items ≡ printed_accepted lists (names_of files.now) works.items) }
{
    if !lists {
        return counted(alloc, files.len());
    }
    print_verdict(alloc, files, &Verdict::Accepted { works })
}
