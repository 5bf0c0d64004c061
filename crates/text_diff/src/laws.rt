//! What a difference is good for.
ghost use Rattle.text_diff.specs.Patch.{PatchGivesNew};

/// Whoever has the old text and what is shown of a difference has the new text.
pub fn patch_gives_new()
    ensures { PatchGivesNew }
{}
