//! The text in which all that is no SQL to psql is blank, and each body of a function.

ghost use Rattle.std.specs.Prelude.{◌≡◌, ◌<◌, ◌≤◌, ◌+◌, ◌-◌, ◌^◌, List, length, vec_len, IfOk, IfSome};
ghost use Rattle.std.specs.Str.{IsUtf8};
ghost use Rattle.psql_text.specs.Psql as spec;
ghost use Rattle.psql_text.specs.Psql.{Passes};
ghost use Rattle.psql_text.specs.Count as count;
ghost use Rattle.psql_text.specs.Told.{IsAnswer, IsTold, StartsAt, bodies_in, commands_in, data_in};
ghost use Rattle.psql_text.specs.Reading.{GoesPast, IsAhead, at_most};
ghost use Rattle.psql_text.specs.declared.reading.Reading.{Reading};
ghost use Rattle.psql_text.specs.declared.part.Part.{Part};

use crate::class::is_blank;
use crate::part::{Part, PartKind};
use crate::reading::{Found, next_part, start};
use sql_lex::NoMemory;
use std::alloc::Global;

/// A text that was made for psql, as the linter reads it.
#[derive(Drop)]
pub struct Blanked {
    /// The text, in which each such part is blank, but for the semicolon of a command that ends a statement. It has the same length and the same
    /// ends of lines.
    pub text: String,
    /// The first byte of the first part.
    pub first: usize,
    /// How many commands of psql itself there are.
    pub commands: usize,
    /// How many lines are data of a COPY .. FROM STDIN, with the lines `\.` that end them.
    pub data_lines: usize,
    /// How many bodies of functions and procedures there are.
    pub bodies: usize,
}

fn leaves_semicolon(kind: PartKind) -> bool
    ensures { result ≡ spec.leaves_semicolon kind }
{
    match kind {
        PartKind::Ending => true,
        PartKind::Command | PartKind::Data | PartKind::Body => false,
    }
}

/// What this byte of a part becomes.
fn as_blank(kind: PartKind, byte: u8) -> u8
    ensures { result ≡ spec.as_blank kind byte }
{
    if is_blank(byte) {
        byte
    } else if leaves_semicolon(kind) && byte == b'\\' {
        b';'
    } else {
        b' '
    }
}

/// Makes the bytes of this part blank: white space stays, ends of lines among it, and the backslash of a command that ends a statement becomes
/// a semicolon.
pub fn blank_out(text: &mut Vec<u8>, part: Part)
    requires { (part.from ≤ part.to) × (part.to ≤ vec_len text.old) }
    ensures { text.new.items ≡ spec.blanked part text.old.items }
{
    for at in part.from..part.to {
        text[at] = as_blank(part.kind, text[at]);
    }
}

/// How many lines begin in this part.
fn lines_between(text: &[u8], from: usize, to: usize) -> usize
    requires { (from < length text.now) × (from ≤ to) }
    ensures value { result ≡ count.lines_between text.now from to }
    ensures few { result ≤ to - from + 1 }
{
    let last = to.min(text.len() - 1);
    text[from..last].iter().filter(|b| **b == b'\n').count() + 1
}

/// How much of each kind was passed over.
#[derive(Clone, Copy)]
pub struct Counts {
    pub commands: usize,
    pub data_lines: usize,
    pub bodies: usize,
}

impl Counts {
    /// The counts with this part.
    fn with(self, text: &[u8], part: Part) -> Counts
        requires part { (part.from < length text.now) × (part.from ≤ part.to) }
        requires few { (self.commands + 1 < 2 ^ 64) × (self.data_lines + at_most part < 2 ^ 64) × (self.bodies + 1 < 2 ^ 64) }
        ensures commands { result.commands ≡ self.commands + count.commands_of part.kind }
        ensures data { result.data_lines ≡ self.data_lines + count.data_of part.kind (count.lines_between text.now part.from part.to) }
        ensures bodies { result.bodies ≡ self.bodies + count.bodies_of part.kind }
        ensures few { (result.commands ≤ self.commands + 1) × (result.data_lines ≤ self.data_lines + at_most part) × (result.bodies ≤ self.bodies + 1) }
    {
        match part.kind {
            PartKind::Command | PartKind::Ending => Counts {
                commands: self.commands + 1,
                data_lines: self.data_lines,
                bodies: self.bodies,
            },
            PartKind::Data => Counts {
                commands: self.commands,
                data_lines: self.data_lines + lines_between(text, part.from, part.to),
                bodies: self.bodies,
            },
            PartKind::Body => Counts {
                commands: self.commands,
                data_lines: self.data_lines,
                bodies: self.bodies + 1,
            },
        }
    }
}

/// Makes this first part of the text and all that come after it blank, and counts them.
fn blank_parts(bytes: &[u8], text: &mut Vec<u8>, first: Found) -> Counts
    requires same { text.old.items ≡ bytes.now }
    requires goes { GoesPast bytes.now (spec.start bytes.now) first }
    requires ahead { (r : Reading) × IsAhead bytes.now r first }
    ensures told { (ps : List Part) × Passes bytes.now ps × (text.new.items ≡ spec.blank_all ps bytes.now) × StartsAt ps first.part.from × (result.commands ≡ commands_in ps) × (result.data_lines ≡ data_in bytes.now ps) × (result.bodies ≡ bodies_in ps) }
    ensures utf8 { IsUtf8 bytes.now → IsUtf8 text.new.items }
{
    let mut counts = Counts {
        commands: 0,
        data_lines: 0,
        bodies: 0,
    };
    let mut next = Some(first);
    'parts: while let Some(found) = next {
        counts = counts.with(bytes, found.part);
        blank_out(text, found.part);
        next = next_part(text, found.next);
    }
    counts
}

/// The text in which this first part and all that come after it are blank.
fn blank_from(alloc: Global, source: &str, first: Found) -> Result<Blanked, NoMemory>
    requires goes { GoesPast source.now (spec.start source.now) first }
    requires ahead { (r : Reading) × IsAhead source.now r first }
    ensures told { IfOk result (λ b. (ps : List Part) × Passes source.now ps × IsTold source.now ps b) }
    ensures within { IfOk result (λ b. b.first < length source.now) }
{
    let mut bytes = Vec::from_slice(alloc, source.as_bytes())?;
    let counts = blank_parts(source.as_bytes(), &mut bytes, first);
    match String::from_utf8(bytes) {
        Ok(text) => Ok(Blanked {
            text,
            first: first.part.from,
            commands: counts.commands,
            data_lines: counts.data_lines,
            bodies: counts.bodies,
        }),
        Err(_) => unreachable!(),
    }
}

/// The text without what psql keeps to itself, and without the bodies of functions: each line that begins with a command that only psql
/// takes, the lines of data after a COPY .. FROM STDIN up to the line `\.`, and the bodies BEGIN ATOMIC .. END, but for the BEGIN, are blank in it. Of a command
/// that ends a statement, as `\g` and `\endif`, a semicolon is left, so that what comes before it is one statement and what comes after it
/// another. `None` where nothing is blank that was none, so that nothing is copied. After a token that never closes, and from a body that
/// does not end, the text stays as it is. It is for a text as it was written, and not for its own answer, in which each COPY .. FROM
/// STDIN is there still. The error comes when memory runs out.
pub fn without_psql(alloc: Global, text: &str) -> Result<Option<Blanked>, NoMemory>
    ensures some { IfOk result (λ answer. (ps : List Part) × Passes text.now ps × IsAnswer text.now ps answer) }
    // There are no other parts than these.
    ensures all { (ps : List Part) → Passes text.now ps → IfOk result (IsAnswer text.now ps) }
    ensures within { IfOk result (λ answer. IfSome answer (λ b. b.first < length text.now)) }
{
    let bytes = text.as_bytes();
    match next_part(bytes, start()) {
        None => Ok(None),
        Some(first) => Ok(Some(blank_from(alloc, text, first)?)),
    }
}
