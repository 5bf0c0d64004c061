//! How long an edited text is.
ghost use Rattle.std.specs.Prelude.{◌≡◌, ◌+◌, ◌<◌, ◌≤◌, ◌^◌, length, IfNone, IfSome};
ghost use Rattle.law_type_fixes.specs.law_fixes.Edited.{edited, put_by};
ghost use Rattle.fix_edit.specs.Faults.{AreGood};

use law_type_fixes::Edit;

/// What an edit puts in the place of its range.
pub fn put_by(edit: &Edit) -> &str
    ensures { result.now ≡ put_by edit.now }
{
    match &edit.text {
        Some(text) => text.as_str(),
        None => "",
    }
}

// The sum of two lengths, if it is less than 2^32.
fn sum_of(len: usize, more: usize) -> Option<usize>
    ensures some { IfSome result (λ sum. (sum ≡ len + more) × (sum < 2 ^ 32)) }
    ensures none { IfNone result (2 ^ 32 ≤ len + more) }
{
    match len.checked_add(more) {
        Some(sum) if sum <= u32::MAX as usize => Some(sum),
        _ => None,
    }
}

/// The length of the edited text, if it is less than 2^32.
pub fn edited_len(text: &str, edits: &[Edit]) -> Option<usize>
    requires short { length text.now < 2 ^ 32 }
    requires good { AreGood text.now edits.now }
    ensures some { IfSome result (λ len. (len ≡ length (edited text.now edits.now)) × (len < 2 ^ 32)) }
    ensures none { IfNone result (2 ^ 32 ≤ length (edited text.now edits.now)) }
{
    let mut len = 0;
    let mut place = 0;
    for edit in edits {
        let start = edit.text_range.start().raw() as usize;
        len = sum_of(len, start - place)?;
        len = sum_of(len, put_by(edit).len())?;
        place = edit.text_range.end().raw() as usize;
    }
    sum_of(len, text.len() - place)
}
