//! Files, one by one.
ghost use Rattle.std.specs.Prelude.{◌≡◌, ◌≤◌, ◌++◌, ◌∷◌, [], All, IfOk, OnOk};
ghost use Rattle.fix_output.specs.devices.Contents.{KeepsContents};
ghost use Rattle.fix_run.specs.Outcomes as spec;

use crate::fixer::Fixer;
use crate::outcome::{FileOutcome, fix_file};
use fix_output::{FileStore, FixedFile, NoMemory};
use gate_files::{Unread, Words};
use std::alloc::Global;

/// What came of files: those of which something is made, and the others, both in order.
#[derive(Drop)]
pub(crate) struct Files {
    pub(crate) fixed: Vec<FixedFile>,
    pub(crate) unread: Vec<Unread>,
}

/// No file.
pub(crate) fn no_files(alloc: Global) -> Files
    ensures fixed { result.fixed.items ≡ [] }
    ensures unread { result.unread.items ≡ [] }
{
    Files {
        fixed: Vec::new(alloc),
        unread: Vec::new(alloc),
    }
}

/// Adds what came of one file more. The error comes when memory runs out.
pub(crate) fn keep(all: &mut Files, came: FileOutcome) -> Result<(), NoMemory>
    ensures fixed { OnOk result (all.new.fixed.items ≡ all.old.fixed.items ++ spec.fixed_of (came ∷ [])) }
    ensures unread { OnOk result (all.new.unread.items ≡ all.old.unread.items ++ spec.unread_of (came ∷ [])) }
{
    match came {
        FileOutcome::Fixed(file) => all.fixed.push(file)?,
        FileOutcome::Unread(file) => all.unread.push(file)?,
    }
    Ok(())
}

/// What comes of files, in their order. A fault of one costs no other its fixes. The error comes when memory runs out.
pub(crate) fn fix_files<M: Fixer, F: FileStore>(
    alloc: Global,
    fixer: &M,
    files: &mut F,
    names: &Words,
) -> Result<Files, NoMemory>
    ensures come { IfOk result (λ all. spec.HaveOutcomes (M.answers fixer.now) (F.content files.old) (F.faults files.old) (F.faults files.new) names.now all.fixed.items all.unread.items) }
    ensures sound { IfOk result (λ all. All spec.IsSound all.unread.items) }
    ensures sound_files { IfOk result (λ all. All spec.IsSoundFile all.fixed.items) }
{
    let mut all = no_files(alloc);
    for i in 0..names.len() {
        let came = fix_file(alloc, fixer, files, names.get(i))?;
        keep(&mut all, came)?;
    }
    Ok(all)
}
