//! The notes about fixes that are not made, and the lines about files of which nothing is made.
ghost use Rattle.std.specs.Prelude.{◌≡◌, ◌++◌, All, IfOk, OnOk, flat_map};
ghost use Rattle.std.specs.Str.{IsCharBoundary};
ghost use Rattle.fix_run.specs.Giving as spec;
ghost use Rattle.fix_run.specs.Outcomes.{ArePlacedIn, IsSound, IsSoundFile};

use fix_output::{FixedFile, NoMemory, OtherFix};
use fix_words::{Order, push, push_concise, push_place};
use gate_files::{Level, SourceFile, Unread};
use std::alloc::Global;

// Adds `note[rule]: the fix of first ..`.
fn push_note_part(to: &mut Vec<u8>, other: OtherFix) -> Result<(), NoMemory>
    ensures { OnOk result (to.new.items ≡ to.old.items ++ spec.note_part other) }
{
    push(to, b"note[")?;
    push(to, other.rule.name().as_bytes())?;
    push(to, b"]: the fix of ")?;
    push(to, other.first.name().as_bytes())?;
    push(to, b" changes the same part and comes first\n")
}

// Adds the note about a fix that is not made.
fn push_note(to: &mut Vec<u8>, file: &SourceFile<'_>, other: OtherFix) -> Result<(), NoMemory>
    requires { IsCharBoundary file.now.text other.at }
    ensures { OnOk result (to.new.items ≡ to.old.items ++ spec.note_of file.now other) }
{
    push_place(to, file, other.at)?;
    push_note_part(to, other)
}

// Adds the notes about some fixes of a file.
fn push_others(to: &mut Vec<u8>, file: &SourceFile<'_>, others: &[OtherFix]) -> Result<(), NoMemory>
    requires { ArePlacedIn file.now.text others.now }
    ensures { OnOk result (to.new.items ≡ to.old.items ++ flat_map (spec.note_of file.now) others.now) }
{
    for other in others {
        push_note(to, file, *other)?;
    }
    Ok(())
}

// Adds the notes about a file.
fn push_notes(to: &mut Vec<u8>, alloc: Global, file: &FixedFile) -> Result<(), NoMemory>
    requires { IsSoundFile file.now }
    ensures { OnOk result (to.new.items ≡ to.old.items ++ spec.notes_of file.now) }
{
    let source = SourceFile::new(alloc, file.name.as_str(), file.old.as_str())?;
    push_others(to, &source, file.others.as_slice())
}

// Adds the notes about files.
fn push_all_notes(to: &mut Vec<u8>, alloc: Global, files: &[FixedFile]) -> Result<(), NoMemory>
    requires { All IsSoundFile files.now }
    ensures { OnOk result (to.new.items ≡ to.old.items ++ flat_map spec.notes_of files.now) }
{
    for file in files {
        push_notes(to, alloc, file)?;
    }
    Ok(())
}

// Adds the line about a file.
fn push_line(to: &mut Vec<u8>, alloc: Global, unread: &Unread) -> Result<(), NoMemory>
    requires { IsSound unread.now }
    ensures { OnOk result (to.new.items ≡ to.old.items ++ spec.line_of unread.now) }
{
    let file = SourceFile::new(alloc, unread.name.as_str(), unread.front.as_str())?;
    push_concise(
        to,
        Order::RuleFirst,
        &file,
        unread.refusal.place(),
        Level::Error,
        unread.refusal.name().as_bytes(),
        unread.refusal.message().as_bytes(),
    )
}

// Adds the lines about files.
fn push_lines(to: &mut Vec<u8>, alloc: Global, all: &[Unread]) -> Result<(), NoMemory>
    requires { All IsSound all.now }
    ensures { OnOk result (to.new.items ≡ to.old.items ++ flat_map spec.line_of all.now) }
{
    for unread in all {
        push_line(to, alloc, unread)?;
    }
    Ok(())
}

/// The notes about fixes that are not made, and then the lines about files of which nothing is made. The error comes when memory runs out.
pub(crate) fn lines_of(
    alloc: Global,
    files: &[FixedFile],
    all: &[Unread],
) -> Result<Vec<u8>, NoMemory>
    requires files { All IsSoundFile files.now }
    requires all { All IsSound all.now }
    ensures { IfOk result (λ lines. lines.items ≡ spec.lines_of files.now all.now) }
{
    let mut lines = Vec::new(alloc);
    push_all_notes(&mut lines, alloc, files)?;
    push_lines(&mut lines, alloc, all)?;
    Ok(lines)
}
