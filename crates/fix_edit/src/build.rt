//! The edited text.
ghost use Rattle.std.specs.Prelude.{◌≡◌, ◌++◌, ◌≤◌, IfErr, IfOk, OnOk, length, slice_range, string_bytes};
ghost use Rattle.std.specs.Str.{IsCharBoundary};
ghost use Rattle.fix_edit.specs.Answer.{CanBeMade, IsCause};
ghost use Rattle.law_type_fixes.specs.law_fixes.Edited.{edited, put_by};

use crate::error::FixError;
use crate::measure::put_by;
use law_type_fixes::Edit;
use std::alloc::{AllocError, Global};

// Adds the bytes from a place to an edit's range, and what the edit puts there.
fn push_edit(made: &mut String, text: &str, place: usize, edit: &Edit) -> Result<(), AllocError>
    requires apart { place ≤ edit.now.text_range.start }
    requires from { IsCharBoundary text.now place }
    requires to { IsCharBoundary text.now edit.now.text_range.start }
    ensures { OnOk result (string_bytes made.new
        ≡ string_bytes made.old ++ (slice_range text.now place edit.now.text_range.start ++ put_by edit.now)) }
{
    made.push_str(&text[place..edit.text_range.start().raw() as usize])?;
    made.push_str(put_by(edit))
}

/// The edited text, which has `len` bytes. All its memory is taken at once.
pub fn build(alloc: Global, text: &str, edits: &[Edit], len: usize) -> Result<String, FixError>
    requires made { CanBeMade text.now edits.now }
    requires len { len ≡ length (edited text.now edits.now) }
    ensures ok { IfOk result (λ made. string_bytes made ≡ edited text.now edits.now) }
    ensures err { IfErr result (IsCause text.now edits.now) }
{
    let mut made = String::with_capacity(alloc, len)?;
    let mut place = 0;
    for edit in edits {
        push_edit(&mut made, text, place, edit)?;
        place = edit.text_range.end().raw() as usize;
    }
    made.push_str(&text[place..])?;
    Ok(made)
}
