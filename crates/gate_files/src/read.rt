//! The texts of files.
ghost use Rattle.std.specs.Prelude.{◌≡◌, ◌<◌, ◌≤◌, ◌^◌, IfOk, length};
ghost use Rattle.sql_files.specs.devices.Contents.{KeepsContents};
ghost use Rattle.gate_files.specs.Read.{IsOutcome, IsFile, IsReading, IsTextOf, IsUnreadAs, IsUnreadBy};

use checked_file::{NoMemory, Refusal, Text, TextSize, readable};
use simdutf8::compat::from_utf8;
use sql_files::{FileError, FileStore, Words};
use std::alloc::Global;

/// A migration file: its name and its text.
#[derive(Debug, Drop)]
pub struct MigrationFile {
    /// The name.
    pub name: Text,
    /// The text.
    pub text: Text,
}

/// A file that was not read as a text, and why.
#[derive(Debug, Drop)]
pub struct Unread {
    /// The name.
    pub name: Text,
    /// The front of it that is UTF-8, where it is not UTF-8; nothing where no byte was read.
    pub front: Text,
    /// Why.
    pub refusal: Refusal,
}

/// What came of reading files.
#[derive(Debug, Drop)]
pub enum Reading {
    /// All were read.
    Files(Vec<MigrationFile>),
    /// This is the first one that was not read as a text.
    Unread(Unread),
}

// What came of reading one file.
#[derive(Drop)]
enum Outcome {
    Read(MigrationFile),
    Unread(Unread),
}

// A copy of a text.
fn copied(alloc: Global, text: &str) -> Result<Text, NoMemory>
    ensures { IfOk result (λ copy. copy ≡ text.now) }
{
    Ok(Text::made(String::from_str(alloc, text)?))
}

// The refusal of a file that could not be read. The error `NoMemory` has none.
fn refusal_of(error: FileError) -> Result<Refusal, NoMemory>
    ensures { IfOk result (IsUnreadBy error) }
{
    match error {
        FileError::Missing => Ok(Refusal::Missing),
        FileError::Fault => Ok(Refusal::Unreadable),
        FileError::TooLong => Ok(Refusal::TooLong),
        FileError::NoMemory => Err(NoMemory),
    }
}

// A file that was not read as a text.
fn unread_file(alloc: Global, name: &str, front: &str, refusal: Refusal) -> Result<Unread, NoMemory>
    ensures { IfOk result (IsUnreadAs name.now front.now refusal) }
{
    let front = copied(alloc, front)?;
    let name = copied(alloc, name)?;
    Ok(Unread {
        name,
        front,
        refusal,
    })
}

// A file of a name and a text.
fn file(alloc: Global, name: &str, text: &str) -> Result<MigrationFile, NoMemory>
    ensures { IfOk result (IsFile name.now text.now) }
{
    let text = copied(alloc, text)?;
    let name = copied(alloc, name)?;
    Ok(MigrationFile { name, text })
}

// What comes of a file of these bytes.
fn of_bytes(alloc: Global, name: &str, bytes: &[u8]) -> Result<Outcome, NoMemory>
    requires { length bytes.now < 2 ^ 32 }
    ensures { IfOk result (IsTextOf name.now bytes.now) }
{
    match from_utf8(bytes) {
        Ok(text) => Ok(Outcome::Read(file(alloc, name, text)?)),
        Err(error) => {
            let at = TextSize::new(error.valid_up_to() as u32);
            let refusal = Refusal::NotUtf8 { at };
            Ok(Outcome::Unread(unread_file(alloc, name, readable(bytes), refusal)?))
        }
    }
}

// What comes of a file.
fn read_one<F: FileStore>(alloc: Global, files: &mut F, name: &str) -> Result<Outcome, NoMemory>
    ensures came { IfOk result (IsOutcome (F.content files.old name.now) (F.faults files.old) (F.faults files.new) name.now) }
    ensures kept { KeepsContents (F.content files.old) (F.content files.new) }
    ensures later { F.faults files.old ≤ F.faults files.new }
{
    match files.read(alloc, name) {
        Ok(bytes) => of_bytes(alloc, name, bytes.as_slice()),
        Err(error) => {
            let refusal = refusal_of(error)?;
            Ok(Outcome::Unread(unread_file(alloc, name, "", refusal)?))
        }
    }
}

/// Reads files by their names, in their order, up to the first one that can't be read or is not UTF-8. The error comes when memory runs out.
pub fn read_files<F: FileStore>(
    alloc: Global,
    files: &mut F,
    names: &Words,
) -> Result<Reading, NoMemory>
    ensures reading { IfOk result (IsReading (F.content files.old) (F.faults files.old) (F.faults files.new) names.now) }
    ensures kept { KeepsContents (F.content files.old) (F.content files.new) }
    ensures later { F.faults files.old ≤ F.faults files.new }
{
    let mut all = Vec::new(alloc);
    for i in 0..names.len() {
        let came = read_one(alloc, files, names.get(i))?;
        match came {
            Outcome::Read(file) => all.push(file)?,
            Outcome::Unread(file) => return Ok(Reading::Unread(file)),
        }
    }
    Ok(Reading::Files(all))
}
