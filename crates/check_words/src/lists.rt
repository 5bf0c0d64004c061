//! Names in a list.
ghost use Rattle.std.specs.Prelude.{◌≡◌, IfOk, is_none, map};
ghost use Rattle.code_choice.specs.lint_report.Codes.{code_named};
ghost use Rattle.code_choice.specs.squawk_words.Choices.{items_of};
ghost use Rattle.check_words.specs.Steps as spec;

use code_choice::{NoMemory, Text, code_named, items_of};
use std::alloc::Global;

// Whether a text names nothing.
fn names_nothing(text: &str) -> bool
    ensures { result ≡ is_none (code_named text.now) }
{
    code_named(text).is_none()
}

// The first of these that names neither a rule nor a hazard, or an empty text.
fn first_unnamed<'a>(items: &[&'a str]) -> &'a str
    ensures { result.now ≡ spec.first_unknown (map (λ s. s.now) items.now) }
{
    for item in items {
        if names_nothing(item) {
            return item;
        }
    }
    ""
}

/// The first item of a list that names neither a rule nor a hazard, or an empty text. The error comes when memory runs out.
pub(crate) fn first_unknown(alloc: Global, list: &str) -> Result<Text, NoMemory>
    ensures { IfOk result (λ item. item ≡ spec.first_unknown (items_of list.now)) }
{
    let items = items_of(alloc, list)?;
    let item = first_unnamed(items.as_slice());
    Ok(Text::made(String::from_str(alloc, item)?))
}
