//! Fixes of one edit.

ghost use Rattle.std.specs.Prelude.{◌≡◌, IfOk};
ghost use Rattle.lint_pass.specs.Fixes.{insertion_fix, replacement_fix};

use lint_base::{Edit, Fix, NoMemory, Text, TextRange, TextSize};
use std::alloc::Global;

/// A fix that inserts one text before a place. The error comes when memory runs out.
pub fn insertion_fix(alloc: Global, title: Text, text: Text, at: TextSize) -> Result<Fix, NoMemory>
    ensures { IfOk result (λ fix. fix ≡ insertion_fix title text at) }
{
    let mut edits = Vec::with_capacity(alloc, 1)?;
    edits.push(Edit::insert(text, at))?;
    Ok(Fix { title, edits })
}

/// A fix that replaces one range by a text. The error comes when memory runs out.
pub fn replacement_fix(
    alloc: Global,
    title: Text,
    text: Text,
    range: TextRange,
) -> Result<Fix, NoMemory>
    ensures { IfOk result (λ fix. fix ≡ replacement_fix title text range) }
{
    let mut edits = Vec::with_capacity(alloc, 1)?;
    edits.push(Edit::replace(range, text))?;
    Ok(Fix { title, edits })
}
