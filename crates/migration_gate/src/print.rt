//! Verdicts.

ghost use Rattle.std.specs.Prelude.{◌≡◌, ◌==◌, ◌<◌, ◌≤◌, ◌++◌, ◌^◌, length, not, position, IfOk, IfSome, OnOk};
ghost use Rattle.migration_gate.specs.Verdict.{names_of, shown};
ghost use Rattle.migration_gate.specs.PrintedVerdict.{count_of_file, name_at, printed_accepted, printed_files, printed_ok, printed_rejected, printed_verdict, printed_works};

use crate::print_lines::{push_why, push_work};
use crate::{GateFile, GateWork, Verdict, Why};
use squawk_linter::NoMemory;
use squawk_print_locks::{push_escaped, push_number};
use std::alloc::Global;

/// The first place of a work of another file.
fn first_of_other(works: &[GateWork], file: u32) -> Option<usize>
    ensures value { result ≡ position (λ w. not (w.file == file)) works.now }
    ensures within { IfSome result (λ i. i < length works.now) }
{
    works.iter().position(|w| w.file != file)
}

/// How many works at the front are of this file.
fn count_of_file(works: &[GateWork], file: u32) -> usize
    ensures value { result ≡ count_of_file file works.now }
    ensures within { result ≤ length works.now }
{
    match first_of_other(works, file) {
        Some(count) => count,
        None => works.len(),
    }
}

fn push_works(alloc: Global, to: &mut Vec<u8>, works: &[GateWork]) -> Result<(), NoMemory>
    ensures { OnOk result (to.new.items ≡ to.old.items ++ printed_works works.now) }
{
    for entry in works {
        push_work(alloc, to, &entry.work)?;
    }
    Ok(())
}

/// Adds the line of an accepted file.
fn push_ok(to: &mut Vec<u8>, name: &str) -> Result<(), NoMemory>
    ensures { OnOk result (to.new.items ≡ to.old.items ++ printed_ok name.now) }
{
    to.extend_from_slice(b"ok ")?;
    push_escaped(to, name.as_bytes())?;
    to.extend_from_slice(b"\n")?;
    Ok(())
}

/// The name of file `i`.
fn name_at<'t>(files: &[GateFile<'t>], i: u32) -> &'t str
    ensures { result.now ≡ name_at (names_of files.now) i }
{
    match files.get(i as usize) {
        Some(file) => file.name,
        None => "",
    }
}

/// Adds each file with its works.
fn push_files(
    alloc: Global,
    to: &mut Vec<u8>,
    files: &[GateFile<'_>],
    works: &[GateWork],
) -> Result<(), NoMemory>
    requires { length files.now < 2 ^ 32 }
    ensures { OnOk result (to.new.items ≡ to.old.items ++ printed_files 0 (names_of files.now) works.now) }
{
    let mut rest = works;
    let count = files.len() as u32;
    for file in 0..count {
        push_ok(to, name_at(files, file))?;
        let (here, others) = rest.split_at(count_of_file(rest, file));
        push_works(alloc, to, here)?;
        rest = others;
    }
    Ok(())
}

fn push_accepted(
    alloc: Global,
    to: &mut Vec<u8>,
    files: &[GateFile<'_>],
    works: &[GateWork],
) -> Result<(), NoMemory>
    requires { length files.now < 2 ^ 32 }
    ensures { OnOk result (to.new.items ≡ to.old.items ++ printed_accepted (names_of files.now) works.now) }
{
    push_files(alloc, to, files, works)?;
    to.extend_from_slice(b"accepted: ")?;
    push_number(to, files.len())?;
    to.extend_from_slice(b"\n")?;
    Ok(())
}

fn push_rejected(to: &mut Vec<u8>, name: &str, why: &Why) -> Result<(), NoMemory>
    ensures { OnOk result (to.new.items ≡ to.old.items ++ printed_rejected name.now why.now) }
{
    to.extend_from_slice(b"rejected ")?;
    push_escaped(to, name.as_bytes())?;
    to.extend_from_slice(b": ")?;
    push_why(to, why)?;
    to.extend_from_slice(b"\n")?;
    Ok(())
}

/// The printed form of a verdict on files. The error comes when memory runs out.
pub fn print_verdict(
    alloc: Global,
    files: &[GateFile<'_>],
    verdict: &Verdict,
) -> Result<Vec<u8>, NoMemory>
    requires { length files.now < 2 ^ 32 }
    ensures { IfOk result (λ bytes. bytes.items ≡ printed_verdict (names_of files.now) (shown verdict.now)) }
{
    let mut to = Vec::new(alloc);
    match verdict {
        Verdict::Accepted { works } => push_accepted(alloc, &mut to, files, works.as_slice())?,
        Verdict::Rejected { file, why } => push_rejected(&mut to, name_at(files, *file), why)?,
    }
    Ok(to)
}
