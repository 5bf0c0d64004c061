//! The differences of files.
ghost use Rattle.std.specs.Prelude.{OnOk};
ghost use Rattle.fix_output.specs.Differences as spec;

use crate::file::{FixedFile, is_changed};
use devices::NoMemory;
use std::alloc::Global;
use text_diff::push_diff;

// Adds the difference of a file, if it is changed.
fn push_if(to: &mut Vec<u8>, alloc: Global, file: &FixedFile) -> Result<(), NoMemory>
    ensures { OnOk result (spec.HasDiffIf (spec.is_changed file.now) file.now to.old.items to.new.items) }
{
    if is_changed(file) {
        push_diff(
            to,
            alloc,
            file.name.as_str(),
            file.old.as_str(),
            file.new.as_str(),
        )
    } else {
        Ok(())
    }
}

/// Adds the differences of those files that are changed, one after another, in the unified format. The error comes when memory runs out.
pub fn push_diffs(to: &mut Vec<u8>, alloc: Global, files: &[FixedFile]) -> Result<(), NoMemory>
    ensures { OnOk result (spec.HasDiffs files.now to.old.items to.new.items) }
{
    for file in files {
        push_if(to, alloc, file)?;
    }
    Ok(())
}
