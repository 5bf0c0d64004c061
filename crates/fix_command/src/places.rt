//! Places of a text that was made for psql, for those of its SQL.
ghost use Rattle.std.specs.Prelude.{IfOk};
ghost use Rattle.fix_asked.specs.fix_run.Outcomes.{ArePlacedIn};
ghost use Rattle.fix_command.specs.Places.{AreMoved, IsMoved, IsPlaceFor};

use fix_asked::{NoMemory, TextSize};
use fix_text::OtherFix;
use std::alloc::Global;

/// The place in a text for this one of its SQL: both have as many bytes, and this one where a character of the text begins there.
pub(crate) fn place_in(text: &str, at: TextSize) -> TextSize
    ensures { IsPlaceFor text.now at result }
{
    TextSize::new(text.floor_char_boundary(at.raw() as usize) as u32)
}

// A fix, at its place in the text.
fn moved(text: &str, other: OtherFix) -> OtherFix
    ensures { IsMoved text.now other result }
{
    OtherFix {
        at: place_in(text, other.at),
        rule: other.rule,
        first: other.first,
    }
}

/// The same fixes, each at its place in the text. The error comes when memory runs out.
pub(crate) fn all_moved(
    alloc: Global,
    text: &str,
    others: &[OtherFix],
) -> Result<Vec<OtherFix>, NoMemory>
    ensures moved { IfOk result (λ made. AreMoved text.now others.now made.items) }
    ensures placed { IfOk result (λ made. ArePlacedIn text.now made.items) }
{
    let mut made = Vec::new(alloc);
    for other in others {
        made.push(moved(text, *other))?;
    }
    Ok(made)
}
