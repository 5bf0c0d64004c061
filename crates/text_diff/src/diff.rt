//! The difference of two texts.
ghost use Rattle.std.specs.Prelude.{◌≡◌, ◌++◌, ℕ, List, OnOk};
ghost use Rattle.text_diff.specs.Unified.{HasDiff};

use crate::context::with_context;
use crate::line::lines;
use crate::print::push_printed;
use crate::script::script;
use source_file::NoMemory;
use std::alloc::Global;

/// Adds the difference of an old and a new text of a file, in the unified format. Where the texts are the same, it has names and
/// no hunk. It takes time in proportion to the number of lines. The error comes when memory runs out.
pub fn push_diff(
    to: &mut Vec<u8>,
    alloc: Global,
    name: &str,
    old: &str,
    new: &str,
) -> Result<(), NoMemory>
    ensures { OnOk result (HasDiff name.now old.now new.now to.old.items to.new.items) }
{
    let old_lines = lines(alloc, old.as_bytes())?;
    let new_lines = lines(alloc, new.as_bytes())?;
    let steps = script(alloc, old_lines.as_slice(), new_lines.as_slice())?;
    let shown = with_context(alloc, steps.as_slice())?;
    push_printed(to, name, shown.as_slice())
}
