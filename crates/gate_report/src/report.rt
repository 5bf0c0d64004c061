//! The report on the file that is not accepted.
ghost use Rattle.std.specs.Prelude.{◌≡◌, ◌<◌, ◌^◌, ◌++◌, IfOk, IfSome, OnOk, length};
ghost use Rattle.std.specs.Str.{IsCharBoundary};
ghost use Rattle.gate_report.specs.Report as spec;

use crate::cause::Cause;
use crate::rows::{push_help, push_name, push_placed, push_title};
use crate::spot::spot_of;
use report_lines::{NoMemory, Rule, SourceFile, TextSize, push};
use std::alloc::Global;

// Adds where a cause is, and gives how many columns the number of the line has.
fn push_where(
    to: &mut Vec<u8>,
    file: &SourceFile<'_>,
    spot: Option<TextSize>,
) -> Result<usize, NoMemory>
    requires spot { IfSome spot (IsCharBoundary file.now.text) }
    requires short { length file.now.text < 2 ^ 32 }
    ensures { spec.HasWhere result file.now spot to.old.items to.new.items }
{
    match spot {
        Some(at) => push_placed(to, file, at),
        None => {
            push_name(to, file.name())?;
            Ok(1)
        }
    }
}

// The command that explains a rule, where there is one.
fn command_of(alloc: Global, rule: Option<Rule>) -> Result<Vec<u8>, NoMemory>
    ensures { IfOk result (λ command. command.items ≡ spec.command_of rule) }
{
    let mut command = Vec::new(alloc);
    let Some(rule) = rule else {
        return Ok(command);
    };
    push(&mut command, b"`lavkheto explain ")?;
    push(&mut command, rule.name().as_bytes())?;
    push(&mut command, b"` ")?;
    Ok(command)
}

// Adds what is wrong with a file, where, and what to do.
fn push_refused(
    to: &mut Vec<u8>,
    alloc: Global,
    file: &SourceFile<'_>,
    cause: &Cause,
) -> Result<(), NoMemory>
    requires { length file.now.text < 2 ^ 32 }
    ensures { OnOk result (to.new.items ≡ to.old.items ++ spec.printed_refused file.now cause.now) }
{
    push_title(to, cause.name(), cause.message())?;
    let spot = spot_of(file.text(), cause);
    let gutter = push_where(to, file, spot)?;
    let command = command_of(alloc, cause.rule())?;
    push_help(to, gutter, command.as_slice(), cause.help())?;
    push(to, b"\n")
}

/// What is written of a file that is not accepted: what is wrong with it, where, with the line, and what to do. The error comes when memory
/// runs out.
pub fn print_refused(
    alloc: Global,
    name: &str,
    text: &str,
    cause: Cause,
) -> Result<Vec<u8>, NoMemory>
    requires { length text.now < 2 ^ 32 }
    ensures { IfOk result (λ bytes. bytes.items ≡ spec.printed_refused (record { name = name.now; text = text.now }) cause) }
{
    let file = SourceFile::new(alloc, name, text)?;
    let mut to = Vec::new(alloc);
    push_refused(&mut to, alloc, &file, &cause)?;
    Ok(to)
}
