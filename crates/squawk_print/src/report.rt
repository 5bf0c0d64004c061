//! Reports and their list.
ghost use Rattle.std.specs.Prelude.{◌≡◌, ◌≤◌, ◌++◌, vec_capacity, IfOk, OnOk, OnErr, decimal, Some};
ghost use Rattle.std.specs.List.{flat_map};
ghost use Rattle.lint_base.specs.Rules.{name_of};
ghost use Rattle.squawk_print.specs.Printed as spec;
ghost use Rattle.squawk_print.specs.Room.{LacksRoom};
ghost use Rattle.squawk_print.specs.Written.{last_line};

use crate::escape::push_text;
use itoa::Buffer;
use lint_base::{Edit, Fix, NoMemory, Text, TextRange, Violation};
use std::alloc::Global;

/// How many bytes are kept ready for each report.
const ROOM: usize = 272;

/// Adds a number in decimal digits.
pub fn push_number(to: &mut Vec<u8>, number: usize) -> Result<(), NoMemory>
    ensures grown { OnOk result (to.new.items ≡ to.old.items ++ decimal number) }
    ensures capacity { vec_capacity to.old ≤ vec_capacity to.new }
    ensures full { OnErr result (LacksRoom to.old (decimal number)) }
{
    let mut buffer = Buffer::new();
    to.extend_from_slice(buffer.format(number).as_bytes())?;
    Ok(())
}

fn push_range(to: &mut Vec<u8>, range: TextRange) -> Result<(), NoMemory>
    ensures grown { OnOk result (to.new.items ≡ to.old.items ++ spec.printed_range range) }
    ensures capacity { vec_capacity to.old ≤ vec_capacity to.new }
    ensures full { OnErr result (LacksRoom to.old (spec.printed_range range)) }
{
    push_number(to, range.start().raw() as usize)?;
    to.extend_from_slice(b"..")?;
    push_number(to, range.end().raw() as usize)
}

fn push_line(to: &mut Vec<u8>, label: &[u8], text: &Text) -> Result<(), NoMemory>
    ensures grown { OnOk result (to.new.items ≡ to.old.items ++ spec.labelled label.now (Some text.now)) }
    ensures capacity { vec_capacity to.old ≤ vec_capacity to.new }
    ensures full { OnErr result (LacksRoom to.old (spec.labelled label.now (Some text.now))) }
{
    to.extend_from_slice(label)?;
    push_text(to, text)?;
    to.extend_from_slice(b"\n")?;
    Ok(())
}

fn push_labelled(to: &mut Vec<u8>, label: &[u8], text: &Option<Text>) -> Result<(), NoMemory>
    ensures grown { OnOk result (to.new.items ≡ to.old.items ++ spec.labelled label.now text.now) }
    ensures capacity { vec_capacity to.old ≤ vec_capacity to.new }
    ensures full { OnErr result (LacksRoom to.old (spec.labelled label.now text.now)) }
{
    match text {
        None => Ok(()),
        Some(text) => push_line(to, label, text),
    }
}

fn push_quoted(to: &mut Vec<u8>, text: &Text) -> Result<(), NoMemory>
    ensures grown { OnOk result (to.new.items ≡ to.old.items ++ spec.quoted text.now) }
    ensures capacity { vec_capacity to.old ≤ vec_capacity to.new }
    ensures full { OnErr result (LacksRoom to.old (spec.quoted text.now)) }
{
    to.extend_from_slice(b" \"")?;
    push_text(to, text)?;
    to.extend_from_slice(b"\"\n")?;
    Ok(())
}

fn push_insertion(to: &mut Vec<u8>, at: u32, text: &Text) -> Result<(), NoMemory>
    ensures grown { OnOk result (to.new.items ≡ to.old.items ++ spec.insertion at text.now) }
    ensures capacity { vec_capacity to.old ≤ vec_capacity to.new }
    ensures full { OnErr result (LacksRoom to.old (spec.insertion at text.now)) }
{
    to.extend_from_slice(b"    insert ")?;
    push_number(to, at as usize)?;
    push_quoted(to, text)
}

fn push_replacement(to: &mut Vec<u8>, range: TextRange, text: &Text) -> Result<(), NoMemory>
    ensures grown { OnOk result (to.new.items ≡ to.old.items ++ spec.replacement range text.now) }
    ensures capacity { vec_capacity to.old ≤ vec_capacity to.new }
    ensures full { OnErr result (LacksRoom to.old (spec.replacement range text.now)) }
{
    to.extend_from_slice(b"    replace ")?;
    push_range(to, range)?;
    push_quoted(to, text)
}

fn push_deletion(to: &mut Vec<u8>, range: TextRange) -> Result<(), NoMemory>
    ensures grown { OnOk result (to.new.items ≡ to.old.items ++ spec.deletion range) }
    ensures capacity { vec_capacity to.old ≤ vec_capacity to.new }
    ensures full { OnErr result (LacksRoom to.old (spec.deletion range)) }
{
    to.extend_from_slice(b"    delete ")?;
    push_range(to, range)?;
    to.extend_from_slice(b"\n")?;
    Ok(())
}

fn push_edit(to: &mut Vec<u8>, edit: &Edit) -> Result<(), NoMemory>
    ensures grown { OnOk result (to.new.items ≡ to.old.items ++ spec.printed_edit edit.now) }
    ensures capacity { vec_capacity to.old ≤ vec_capacity to.new }
    ensures full { OnErr result (LacksRoom to.old (spec.printed_edit edit.now)) }
{
    let range = edit.text_range;
    match &edit.text {
        None => push_deletion(to, range),
        Some(text) => {
            if range.is_empty() {
                push_insertion(to, range.start().raw(), text)
            } else {
                push_replacement(to, range, text)
            }
        }
    }
}

fn push_edits(to: &mut Vec<u8>, edits: &[Edit]) -> Result<(), NoMemory>
    ensures grown { OnOk result (to.new.items ≡ to.old.items ++ flat_map spec.printed_edit edits.now) }
    ensures capacity { vec_capacity to.old ≤ vec_capacity to.new }
    ensures full { OnErr result (LacksRoom to.old (flat_map spec.printed_edit edits.now)) }
{
    for edit in edits {
        push_edit(to, edit)?;
    }
    Ok(())
}

fn push_fix(to: &mut Vec<u8>, fix: &Option<Fix>) -> Result<(), NoMemory>
    ensures grown { OnOk result (to.new.items ≡ to.old.items ++ spec.printed_fix fix.now) }
    ensures capacity { vec_capacity to.old ≤ vec_capacity to.new }
    ensures full { OnErr result (LacksRoom to.old (spec.printed_fix fix.now)) }
{
    match fix {
        None => Ok(()),
        Some(fix) => {
            push_line(to, b"  fix: ", &fix.title)?;
            push_edits(to, fix.edits.as_slice())
        }
    }
}

fn push_head(to: &mut Vec<u8>, violation: &Violation) -> Result<(), NoMemory>
    ensures grown { OnOk result (to.new.items ≡ to.old.items ++ spec.printed_head violation.now) }
    ensures capacity { vec_capacity to.old ≤ vec_capacity to.new }
    ensures full { OnErr result (LacksRoom to.old (spec.printed_head violation.now)) }
{
    push_range(to, violation.text_range)?;
    to.extend_from_slice(b": warning[")?;
    to.extend_from_slice(violation.code.name().as_bytes())?;
    to.extend_from_slice(b"]: ")?;
    push_text(to, &violation.message)?;
    to.extend_from_slice(b"\n")?;
    Ok(())
}

#[tactic(auto, unfolding(crate::specs::Printed::printed_violation))]
pub(crate) fn push_violation(to: &mut Vec<u8>, violation: &Violation) -> Result<(), NoMemory>
    ensures grown { OnOk result (to.new.items ≡ to.old.items ++ spec.printed_violation violation.now) }
    ensures capacity { vec_capacity to.old ≤ vec_capacity to.new }
    ensures full { OnErr result (LacksRoom to.old (spec.printed_violation violation.now)) }
{
    push_head(to, violation)?;
    push_labelled(to, b"  note: ", &violation.note)?;
    push_labelled(to, b"  help: ", &violation.help)?;
    push_fix(to, &violation.fix)?;
    Ok(())
}

fn push_each(to: &mut Vec<u8>, violations: &[Violation]) -> Result<(), NoMemory>
    ensures grown { OnOk result (to.new.items ≡ to.old.items ++ spec.printed_each violations.now) }
    ensures capacity { vec_capacity to.old ≤ vec_capacity to.new }
    ensures full { OnErr result (LacksRoom to.old (spec.printed_each violations.now)) }
{
    for violation in violations {
        push_violation(to, violation)?;
    }
    Ok(())
}

#[tactic(auto, unfolding(crate::specs::Written::last_line))]
pub(crate) fn push_count(to: &mut Vec<u8>, count: usize) -> Result<(), NoMemory>
    ensures grown { OnOk result (to.new.items ≡ to.old.items ++ last_line count) }
    ensures capacity { vec_capacity to.old ≤ vec_capacity to.new }
    ensures full { OnErr result (LacksRoom to.old (last_line count)) }
{
    to.extend_from_slice(b"violations: ")?;
    push_number(to, count)?;
    to.extend_from_slice(b"\n")?;
    Ok(())
}

/// Prints reports, one after the other, and then their count. The bytes are UTF-8. The error comes when memory runs out.
///
/// Places are bytes of the text, counted from 0.
pub fn print_violations(alloc: Global, v: &[Violation]) -> Result<Vec<u8>, NoMemory>
    ensures { IfOk result (λ bytes. bytes.items ≡ spec.printed v.now) }
{
    let room = v.len().saturating_mul(ROOM).saturating_add(64);
    let mut to = Vec::with_capacity(alloc, room)?;
    push_each(&mut to, v)?;
    push_count(&mut to, v.len())?;
    Ok(to)
}
