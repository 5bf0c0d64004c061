//! What comes of a file.
ghost use Rattle.std.specs.Prelude.{◌≡◌, ◌<◌, ◌≤◌, ◌^◌, IfOk, length};
ghost use Rattle.fix_output.specs.devices.Contents.{KeepsContents};
ghost use Rattle.fix_run.specs.Outcomes as spec;
ghost use Rattle.gate_files.specs.Read.{IsUnreadAs, IsUnreadBy};

use crate::fixer::{Fixer, TextOutcome};
use fix_output::{FileError, FileStore, FixedFile, NoMemory, OtherFix, Text, TextSize};
use gate_files::{Refusal, Unread, readable};
use simdutf8::compat::from_utf8;
use std::alloc::Global;

/// What came of a file.
#[derive(Drop)]
pub(crate) enum FileOutcome {
    /// It was read, and this is made of it.
    Fixed(FixedFile),
    /// Nothing is made of it.
    Unread(Unread),
}

// A copy of a text.
fn copied(alloc: Global, text: &str) -> Result<Text, NoMemory>
    ensures { IfOk result (λ copy. copy ≡ text.now) }
{
    Ok(Text::made(String::from_str(alloc, text)?))
}

// A file of which nothing is made, with the front of it that was read.
fn unread_file(alloc: Global, name: &str, front: &str, refusal: Refusal) -> Result<Unread, NoMemory>
    ensures { IfOk result (IsUnreadAs name.now front.now refusal) }
{
    let front = copied(alloc, front)?;
    let name = copied(alloc, name)?;
    Ok(Unread {
        name,
        front,
        refusal,
    })
}

// A file, and what is made of it.
fn fixed_file(
    alloc: Global,
    name: &str,
    old: &str,
    new: Text,
    others: Vec<OtherFix>,
) -> Result<FixedFile, NoMemory>
    ensures { IfOk result (λ file. file ≡ record { name = name.now; old = old.now; new = new; others = others }) }
{
    let old = copied(alloc, old)?;
    let name = copied(alloc, name)?;
    Ok(FixedFile {
        name,
        old,
        new,
        others,
    })
}

// What comes of a file of this text.
fn of_text<M: Fixer>(
    alloc: Global,
    fixer: &M,
    name: &str,
    text: &str,
) -> Result<FileOutcome, NoMemory>
    requires { length text.now < 2 ^ 32 }
    ensures came { IfOk result (spec.IsOfText (M.answers fixer.now) name.now text.now) }
    ensures sound { IfOk result spec.IsSoundOutcome }
{
    match fixer.fix(alloc, text)? {
        TextOutcome::Fixed { text: new, others } => Ok(FileOutcome::Fixed(fixed_file(
            alloc, name, text, new, others,
        )?)),
        TextOutcome::Refused(refusal) => Ok(FileOutcome::Unread(unread_file(
            alloc, name, text, refusal,
        )?)),
    }
}

/// What comes of a file of these bytes. The error comes when memory runs out.
#[tactic(auto, using(crate::proofs::Placing::end_in, crate::proofs::Placing::front_short))]
pub(crate) fn of_bytes<M: Fixer>(
    alloc: Global,
    fixer: &M,
    name: &str,
    bytes: &[u8],
) -> Result<FileOutcome, NoMemory>
    requires { length bytes.now < 2 ^ 32 }
    ensures came { IfOk result (spec.IsOfBytes (M.answers fixer.now) name.now bytes.now) }
    ensures sound { IfOk result spec.IsSoundOutcome }
{
    match from_utf8(bytes) {
        Ok(text) => of_text(alloc, fixer, name, text),
        Err(error) => {
            let at = TextSize::new(error.valid_up_to() as u32);
            let refusal = Refusal::NotUtf8 { at };
            Ok(FileOutcome::Unread(unread_file(alloc, name, readable(bytes), refusal)?))
        }
    }
}

/// What comes of a file of which no byte was read. The error comes when memory runs out.
pub(crate) fn unread(alloc: Global, name: &str, refusal: Refusal) -> Result<FileOutcome, NoMemory>
    requires { spec.IsUnplaced refusal }
    ensures came { IfOk result (spec.IsUnreadOutcome name.now refusal) }
    ensures sound { IfOk result spec.IsSoundOutcome }
{
    Ok(FileOutcome::Unread(unread_file(alloc, name, "", refusal)?))
}

// The refusal of a file that could not be read. The error `NoMemory` has none.
fn refusal_of(error: FileError) -> Result<Refusal, NoMemory>
    ensures by { IfOk result (IsUnreadBy error) }
    ensures unplaced { IfOk result spec.IsUnplaced }
{
    match error {
        FileError::Missing => Ok(Refusal::Missing),
        FileError::Fault => Ok(Refusal::Unreadable),
        FileError::TooLong => Ok(Refusal::TooLong),
        FileError::NoMemory => Err(NoMemory),
    }
}

// What comes of a file that could not be read.
fn of_error(alloc: Global, name: &str, error: FileError) -> Result<FileOutcome, NoMemory>
    ensures came { IfOk result (spec.IsOfError name.now error) }
    ensures sound { IfOk result spec.IsSoundOutcome }
{
    let refusal = refusal_of(error)?;
    unread(alloc, name, refusal)
}

/// What comes of a file. The error comes when memory runs out.
#[tactic(auto, using(crate::proofs::Coming::read_came, crate::proofs::Coming::error_came))]
pub(crate) fn fix_file<M: Fixer, F: FileStore>(
    alloc: Global,
    fixer: &M,
    files: &mut F,
    name: &str,
) -> Result<FileOutcome, NoMemory>
    ensures came { IfOk result (spec.IsOutcome (M.answers fixer.now) (F.content files.old name.now) (F.faults files.old) (F.faults files.new) name.now) }
    ensures sound { IfOk result spec.IsSoundOutcome }
    ensures kept { KeepsContents (F.content files.old) (F.content files.new) }
    ensures later { F.faults files.old ≤ F.faults files.new }
{
    match files.read(alloc, name) {
        Ok(bytes) => of_bytes(alloc, fixer, name, bytes.as_slice()),
        Err(error) => of_error(alloc, name, error),
    }
}
