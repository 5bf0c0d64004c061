//! Standard input, or what stands for it.
ghost use Rattle.std.specs.Prelude.{◌≡◌, IfOk};
ghost use Rattle.checked_file.specs.Sound.{IsSound};
ghost use Rattle.check_run.specs.Checks.{IsChecked, IsEmpty};
ghost use Rattle.check_words.specs.squawk_run.Stops.{IsReadStop};
ghost use Rattle.check_run.specs.Inputs.{IsStoppedBy, input_content, reads_input};

use crate::files::{answered, named, unread_by};
use crate::lint::Lint;
use check_words::{Stop, read_input};
use checked_file::{Checked, NoMemory, Refusal};
use sql_files::{Source, Words};
use std::alloc::Global;

/// Whether the input is to be checked, and no file: where no file is named, or `-` alone.
pub fn reads_input(files: &Words) -> bool
    ensures { result ≡ reads_input files.now }
{
    match files.len() {
        0 => true,
        1 => files.get(0) == "-",
        _ => false,
    }
}

// An input of a name that was not read to its end, by why that is. The stop `NoMemory` ends the run.
fn stopped(alloc: Global, name: &str, stop: Stop) -> Result<Checked, NoMemory>
    requires { IsReadStop stop }
    ensures name { IfOk result (λ file. file.name ≡ name.now) }
    ensures unread { IfOk result (λ file. IsStoppedBy stop file.answer) }
    ensures empty { IfOk result IsEmpty }
    ensures sound { IfOk result IsSound }
{
    let refusal = match stop {
        Stop::TooLong => Refusal::TooLong,
        Stop::ReadFault => Refusal::Unreadable,
        Stop::NoMemory => return Err(NoMemory),
        Stop::BadArguments | Stop::NotUtf8 | Stop::WriteFault => unreachable!(),
    };
    let file = named(alloc, name, unread_by(alloc, refusal))?;
    Ok(file)
}

/// What comes of the input, under a name. The error comes when memory runs out.
pub fn check_input<S: Source, L: Lint>(
    alloc: Global,
    linter: &mut L,
    src: &mut S,
    name: &str,
) -> Result<Checked, NoMemory>
    ensures checked { IfOk result (IsChecked (L.answers linter.old) (input_content (S.left src.old)) (S.faults src.old) (S.faults src.new) name.now) }
    ensures sound { IfOk result IsSound }
{
    match read_input(alloc, src) {
        Ok(bytes) => {
            let file = answered(alloc, linter, name, bytes)?;
            Ok(file)
        }
        Err(stop) => {
            let file = stopped(alloc, name, stop)?;
            Ok(file)
        }
    }
}
