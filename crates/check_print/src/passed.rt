//! What of files was passed over.
ghost use Rattle.std.specs.Prelude.{◌≡◌, ◌++◌, All, OnOk, flat_map};
ghost use Rattle.checked_file.specs.Sound.{IsSound};
ghost use Rattle.check_print.specs.Passed.{passed_bodies, passed_counts, passed_in, passed_line, passed_place};

use checked_file::{Checked, NoMemory, Passed, SourceFile, push_escaped_name, readable};
use report_lines::{push, push_number};
use std::alloc::Global;

// Adds where the first part is that was passed over.
#[tactic(auto, unfolding(crate::specs::Passed::passed_place), using(std::proofs::lemmas::List::append_assoc))]
fn push_place(to: &mut Vec<u8>, file: &SourceFile<'_>, passed: &Passed) -> Result<(), NoMemory>
    ensures { OnOk result (to.new.items ≡ to.old.items ++ passed_place file.now passed.now) }
{
    push(to, b"note: ")?;
    push_escaped_name(to, file.name().as_bytes())?;
    push(to, b":")?;
    push_number(to, file.line(passed.first))
}

// Adds how many bodies were passed over, where there are some.
#[tactic(auto, unfolding(crate::specs::Passed::passed_bodies), using(std::proofs::lemmas::List::append_assoc))]
fn push_bodies(to: &mut Vec<u8>, bodies: usize) -> Result<(), NoMemory>
    ensures { OnOk result (to.new.items ≡ to.old.items ++ passed_bodies bodies) }
{
    if bodies == 0 {
        return Ok(());
    }
    push(to, b", function bodies: ")?;
    push_number(to, bodies)
}

// Adds how much was passed over.
#[tactic(auto, unfolding(crate::specs::Passed::passed_counts), using(std::proofs::lemmas::List::append_assoc))]
fn push_counts(to: &mut Vec<u8>, passed: &Passed) -> Result<(), NoMemory>
    ensures { OnOk result (to.new.items ≡ to.old.items ++ passed_counts passed.now) }
{
    push(to, b": commands of psql: ")?;
    push_number(to, passed.commands)?;
    push(to, b", lines of COPY data: ")?;
    push_number(to, passed.data_lines)?;
    push_bodies(to, passed.bodies)?;
    push(to, b"; they are read as blanks\n")
}

// Adds the line on what of a file was passed over.
#[tactic(auto, unfolding(crate::specs::Passed::passed_line), using(std::proofs::lemmas::List::append_assoc))]
fn push_line(to: &mut Vec<u8>, file: &SourceFile<'_>, passed: &Passed) -> Result<(), NoMemory>
    ensures { OnOk result (to.new.items ≡ to.old.items ++ passed_line file.now passed.now) }
{
    push_place(to, file, passed)?;
    push_counts(to, passed)
}

// Adds the same, where anything was.
fn push_passed(to: &mut Vec<u8>, alloc: Global, checked: &Checked) -> Result<(), NoMemory>
    requires { IsSound checked.now }
    ensures { OnOk result (to.new.items ≡ to.old.items ++ passed_in checked.now) }
{
    match &checked.passed {
        None => push(to, b""),
        Some(passed) => {
            let text = readable(checked.bytes.as_slice());
            let file = SourceFile::new(alloc, checked.name.as_str(), text)?;
            push_line(to, &file, passed)
        }
    }
}

/// Adds a line for each file of which something was passed over. The error comes when memory runs out.
pub(crate) fn push_passed_lines(
    to: &mut Vec<u8>,
    alloc: Global,
    files: &[Checked],
) -> Result<(), NoMemory>
    requires { All IsSound files.now }
    ensures { OnOk result (to.new.items ≡ to.old.items ++ flat_map passed_in files.now) }
{
    for file in files {
        push_passed(to, alloc, file)?;
    }
    Ok(())
}
