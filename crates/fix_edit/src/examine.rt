//! Whether edits can be made in a text.
ghost use Rattle.std.specs.Prelude.{◌<◌, ◌^◌, ◌↔◌, length, IfErr, IsTrue, OnOk};
ghost use Rattle.fix_edit.specs.Answer.{IsCause};
ghost use Rattle.fix_edit.specs.Faults.{AreGood, IsInText};

use crate::error::FixError;
use law_type_fixes::{Edit, TextRange};

// Whether a range begins and ends in the text, between two characters.
fn is_in_text(text: &str, range: TextRange) -> bool
    ensures { IsTrue result ↔ IsInText text.now range }
{
    text.is_char_boundary(range.start().raw() as usize)
        && text.is_char_boundary(range.end().raw() as usize)
}

/// Looks for the first bad edit.
pub fn examine(text: &str, edits: &[Edit]) -> Result<(), FixError>
    requires { length edits.now < 2 ^ 32 }
    ensures ok { OnOk result (AreGood text.now edits.now) }
    ensures err { IfErr result (IsCause text.now edits.now) }
{
    let mut place = 0;
    for (number, edit) in edits.iter().enumerate() {
        let range = edit.text_range;
        if !is_in_text(text, range) {
            return Err(FixError::BadRange {
                edit: number as u32,
            });
        }
        if range.start().raw() < place {
            return Err(FixError::Overlap {
                edit: number as u32,
            });
        }
        place = range.end().raw();
    }
    Ok(())
}
