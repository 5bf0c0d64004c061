//! Cases that are run, and what is printed of those that differ.

ghost use Rattle.std.specs.Prelude.{◌≡◌, ◌≤◌, ◌&&◌, [], true, nat_eq, bytes_eq, IfOk, IsUtf8};
ghost use Rattle.std.specs.Process.{exit_status};

use crate::case::Case;
use crate::fault::Fault;
use crate::rows::answered;
use std::alloc::Global;
use std::io;
use std::process::ExitCode;

/// What a program answers.
#[derive(Drop)]
pub struct Answer {
    pub status: u8,
    pub out: Vec<u8>,
    pub err: Vec<u8>,
}

/// Bytes as a text; a remark where they are none.
pub fn shown(bytes: &[u8]) -> &str
    ensures { IsUtf8 bytes.now → result.now ≡ bytes.now }
{
    match std::str::from_utf8(bytes) {
        Ok(text) => text,
        Err(_) => "not UTF-8\n",
    }
}

impl Answer {
    /// Status 0, and nothing written.
    pub fn new(alloc: Global) -> Answer
        ensures status { result.status ≡ 0 }
        ensures out { result.out.items ≡ [] }
        ensures err { result.err.items ≡ [] }
    {
        Answer {
            status: 0,
            out: Vec::new(alloc),
            err: Vec::new(alloc),
        }
    }

    /// Takes the number and the lines on the error sink. Used by tests only; no contract.
    pub(crate) fn take_status(&mut self, status: &str) -> Result<(), Fault> {
        let (number, line) = status.split_once(' ').unwrap_or((status, ""));
        match number.parse::<u8>() {
            Ok(status) => self.status = status,
            Err(_) => return Err(Fault::Status),
        }
        if line.is_empty() {
            return Ok(());
        }
        for line in line.split('⏎') {
            self.err.extend_from_slice(line.as_bytes())?;
            self.err.push(b'\n')?;
        }
        Ok(())
    }

    fn is_same(&self, other: &Answer) -> bool
        ensures { result ≡ (nat_eq self.now.status other.now.status && (bytes_eq self.now.out.items other.now.out.items && bytes_eq self.now.err.items other.now.err.items)) }
    {
        self.status == other.status
            && self.out.as_slice() == other.out.as_slice()
            && self.err.as_slice() == other.err.as_slice()
    }

    /// Its lines in a case.
    fn lines(&self, alloc: Global) -> Result<String, Fault> {
        let out = shown(self.out.as_slice());
        let end = if out.is_empty() || out.ends_with('\n') {
            ""
        } else {
            "\\\n"
        };
        let status = self.status;
        let err = shown(self.err.as_slice());
        let gap = if err.is_empty() { "" } else { " " };
        Ok(format!(in alloc; "{out}{end}status {status}{gap}{err}")?)
    }
}

/// A program that cases are about.
pub trait Subject {
    /// What it answers to words and a text.
    fn answer(&self, alloc: Global, words: &[String], text: &[u8]) -> Result<Answer, Fault>;

    /// The same on one line, for a row.
    fn row(&self, alloc: Global, words: &[String], text: &str) -> Result<String, Fault>;
}

/// How many cases passed and failed.
#[derive(Clone, Copy)]
struct Tally {
    passed: u64,
    failed: u64,
}

/// Prints a wanted line and the one at its place where they differ.
fn print_line<R: Print>(rt: &R, wanted: &str, other: Option<&str>) -> Result<(), Fault> {
    if other == Some(wanted) {
        return Ok(());
    }
    println!(rt; "-{wanted}")?;
    match other {
        Some(other) => print_more(rt, other),
        None => Ok(()),
    }
}

fn print_more<R: Print>(rt: &R, line: &str) -> Result<(), Fault> {
    println!(rt; "+{line}")?;
    Ok(())
}

/// Prints the lines that differ, place by place.
fn print_lines<R: Print>(rt: &R, wanted: &str, got: &str) -> Result<(), Fault> {
    let mut others = got.lines();
    for line in wanted.lines() {
        print_line(rt, line, others.next())?;
    }
    for line in others {
        print_more(rt, line)?;
    }
    Ok(())
}

fn print_differing<R: Print + Eprint>(
    rt: &R,
    alloc: Global,
    number: u64,
    case: &Case,
    got: &Answer,
) -> Result<(), Fault> {
    let wanted = case.wanted.lines(alloc)?;
    let other = got.lines(alloc)?;
    let title = case.title.as_str();
    println!(rt; "failed, line {number}: {title}")?;
    eprintln!(rt; "failed, line {number}: {title}")?;
    print_lines(rt, wanted.as_str(), other.as_str())
}

/// The count with one more case.
fn counted(tally: Tally, is_passed: bool) -> Tally
    ensures { (result.failed ≡ 0) → is_passed ≡ true }
{
    if is_passed {
        Tally {
            passed: tally.passed.saturating_add(1),
            ..tally
        }
    } else {
        Tally {
            failed: tally.failed.saturating_add(1),
            ..tally
        }
    }
}

/// The exit status of the program.
fn exit_status(tally: Tally) -> u8
    ensures passed { result ≡ 0 → tally.failed ≡ 0 }
    ensures few { result ≤ 1 }
{
    if tally.failed == 0 { 0 } else { 1 }
}

fn run_case<R: Print + Eprint, S: Subject>(
    rt: &R,
    alloc: Global,
    subject: &S,
    number: u64,
    case: &Case,
) -> Result<bool, Fault> {
    let got = answered(alloc, subject, case.words.as_slice(), case.text.as_slice())?;
    if got.is_same(&case.wanted) {
        return Ok(true);
    }
    print_differing(rt, alloc, number, case, &got)?;
    Ok(false)
}

/// Runs each case of a table and prints those that differ. A fault comes with the number of its line.
fn run_cases<R: Print + Eprint, S: Subject>(
    rt: &R,
    alloc: Global,
    subject: &S,
    table: &str,
) -> Result<Tally, (u64, Fault)> {
    let mut tally = Tally {
        passed: 0,
        failed: 0,
    };
    let mut case = Case::new(alloc);
    let mut number = 0u64;
    let mut start = 0u64;
    for line in table.lines() {
        number = number.saturating_add(1);
        if case.is_empty() {
            start = number;
        }
        let is_whole = match case.take_line(line) {
            Ok(is_whole) => is_whole,
            Err(fault) => return Err((number, fault)),
        };
        if is_whole {
            match run_case(rt, alloc, subject, start, &case) {
                Ok(is_passed) => tally = counted(tally, is_passed),
                Err(fault) => return Err((number, fault)),
            }
            case = Case::new(alloc);
        }
    }
    if case.is_empty() {
        Ok(tally)
    } else {
        Err((number, Fault::Unended))
    }
}

/// Runs the cases on standard input. It prints each case that differs, its title to standard error too, and at last how
/// many passed. The status is 0 where all pass, 1 where some differ and 2 where the table is refused.
pub fn run_table<R: Print + Eprint + Input + AllocGlobal, S: Subject>(
    rt: &R,
    subject: &S,
) -> io::Result<ExitCode>
    ensures { IfOk result (λ code. exit_status code ≤ 2) }
{
    let table = io::read_to_string(rt.alloc(), rt.reader())?;
    match run_cases(rt, rt.alloc(), subject, table.as_str()) {
        Ok(tally) => {
            println!(rt; "{} passed, {} failed", tally.passed, tally.failed)?;
            Ok(ExitCode::from(exit_status(tally)))
        }
        Err((line, fault)) => {
            let fault = fault.as_str();
            println!(rt; "line {line}: {fault}")?;
            eprintln!(rt; "line {line}: {fault}")?;
            Ok(ExitCode::from(2))
        }
    }
}
