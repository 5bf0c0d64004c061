//! How many bytes a printed report takes at most, known by the lengths of its texts alone.
ghost use Rattle.std.specs.Prelude.{◌≤◌, length, decimal, IfSome, Some};
ghost use Rattle.std.specs.List.{All, flat_map};
ghost use Rattle.squawk_print.specs.Escaped.{escaped};
ghost use Rattle.squawk_print.specs.Printed as spec;
ghost use Rattle.squawk_print.specs.Written.{last_line};

use lint_base::{Edit, Fix, Text, TextRange, Violation};

/// What an escaped text takes at most. `None` where that is no `usize`, here and below.
#[tactic(auto, using(crate::proofs::Rooms::length_escaped_le))]
fn escaped_room(text: &Text) -> Option<usize>
    ensures { IfSome result (λ room. length (escaped text.now) ≤ room) }
{
    text.as_str().len().checked_mul(2)
}

/// A `u32` has ten digits at most.
#[tactic(auto, using(crate::proofs::Rooms::length_number_le))]
fn number_room(_number: u32) -> usize
    ensures enough { length (decimal _number) ≤ result }
    ensures small { result ≤ 10 }
{
    10
}

fn range_room(range: TextRange) -> usize
    ensures enough { length (spec.printed_range range) ≤ result }
    ensures small { result ≤ 22 }
{
    number_room(range.start().raw()) + 2 + number_room(range.end().raw())
}

fn line_room(label: &[u8], text: &Text) -> Option<usize>
    ensures { IfSome result (λ room. length (spec.labelled label.now (Some text.now)) ≤ room) }
{
    escaped_room(text)?.checked_add(label.len())?.checked_add(1)
}

fn labelled_room(label: &[u8], text: &Option<Text>) -> Option<usize>
    ensures { IfSome result (λ room. length (spec.labelled label.now text.now) ≤ room) }
{
    match text {
        None => Some(0),
        Some(text) => line_room(label, text),
    }
}

/// The longest words of an edit, with the quotes and the end of the line, take 16 bytes.
fn edit_room(edit: &Edit) -> Option<usize>
    ensures { IfSome result (λ room. length (spec.printed_edit edit.now) ≤ room) }
{
    let beside = range_room(edit.text_range) + 16;
    match &edit.text {
        None => Some(beside),
        Some(text) => escaped_room(text)?.checked_add(beside),
    }
}

fn edits_room(edits: &[Edit]) -> Option<usize>
    ensures { IfSome result (λ room. length (flat_map spec.printed_edit edits.now) ≤ room) }
{
    let mut room = 0usize;
    for edit in edits {
        room = room.checked_add(edit_room(edit)?)?;
    }
    Some(room)
}

fn fix_room(fix: &Option<Fix>) -> Option<usize>
    ensures { IfSome result (λ room. length (spec.printed_fix fix.now) ≤ room) }
{
    match fix {
        None => Some(0),
        Some(fix) => {
            line_room(b"  fix: ", &fix.title)?.checked_add(edits_room(fix.edits.as_slice())?)
        }
    }
}

/// The words beside the range, the rule and the message take 14 bytes.
fn head_room(violation: &Violation) -> Option<usize>
    ensures { IfSome result (λ room. length (spec.printed_head violation.now) ≤ room) }
{
    let beside = range_room(violation.text_range) + 14;
    escaped_room(&violation.message)?
        .checked_add(violation.code.name().len())?
        .checked_add(beside)
}

#[tactic(auto, unfolding(crate::specs::Printed::printed_violation))]
fn violation_room(violation: &Violation) -> Option<usize>
    ensures { IfSome result (λ room. length (spec.printed_violation violation.now) ≤ room) }
{
    head_room(violation)?
        .checked_add(labelled_room(b"  note: ", &violation.note)?)?
        .checked_add(labelled_room(b"  help: ", &violation.help)?)?
        .checked_add(fix_room(&violation.fix)?)
}

/// What the last line takes at most: 13 bytes beside its number.
const LAST: usize = 33;

/// At least what each of the reports takes, and what the last line takes. No byte of a text is looked at.
#[tactic(auto, using(crate::proofs::Rooms::length_last_le))]
pub(crate) fn most_room(violations: &[Violation]) -> Option<usize>
    ensures each { IfSome result (λ room.
        All (λ v. length (spec.printed_violation v) ≤ room) violations.now) }
    ensures last { IfSome result (λ room. length (last_line (length violations.now)) ≤ room) }
{
    let mut most = LAST;
    for violation in violations {
        most = most.max(violation_room(violation)?);
    }
    Some(most)
}
