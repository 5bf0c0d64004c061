//! How far a text was read, and the next part of it that is no SQL.

ghost use Rattle.std.specs.Prelude.{◌≡◌, ◌≤◌, ◌<◌, ◌+◌, true, false, [], length, List, IfSome};
ghost use Rattle.sql_lex.specs.sql_token.Token.{At, Text};
ghost use Rattle.psql_text.specs.Lines as lines;
ghost use Rattle.psql_text.specs.Reading.{IsPlace, IsAhead, IsAtBody, GoesPast, MayFollow, Steps, Finds, MovesOn, is_command_next, state, summary};
ghost use Rattle.psql_text.specs.Reading as spec;
ghost use Rattle.psql_text.specs.declared.mark.Mark.{Mark};

use crate::body::body_end;
use crate::lines::{begins_command, begins_ending, data_end, line_end};
use crate::mark::mark_of;
use crate::part::{Part, PartKind};
use crate::statement::Statement;
use crate::token::{is_operator, token_after};
use sql_lex::TokKind;

/// How far a text was read.
#[derive(Clone, Copy)]
pub struct Reading {
    /// Up to this byte it was read as SQL.
    pub at: usize,
    /// Up to this byte its lines were taken as data.
    pub taken: usize,
    /// The statement that is not yet ended.
    pub statement: Statement,
}

/// A part that is no SQL, and how far the text was read before what comes after it.
#[derive(Clone, Copy)]
pub struct Found {
    pub part: Part,
    pub next: Reading,
}

/// A token of SQL that was read.
#[derive(Clone, Copy)]
pub struct Passed {
    /// How far the text was read with it.
    pub next: Reading,
    /// It is an operator, so signs that it lost may come after it.
    pub is_operator: bool,
}

/// What is at one place of a text.
#[derive(Clone, Copy)]
pub enum Step {
    /// A token of SQL.
    Token(Passed),
    /// A part that is no SQL, or a token after which one comes.
    Part(Found),
    /// A token that never closes, or a body that does not end.
    Open,
}

/// Where reading begins.
pub fn start() -> Reading
    ensures statement { result.statement ≡ summary [] }
    ensures place { (t : Text) → IsPlace t result }
    ensures at { result.at ≡ 0 }
    ensures taken { result.taken ≡ 0 }
{
    Reading {
        at: 0,
        taken: 0,
        statement: Statement::new(),
    }
}

/// The command at this place.
fn command_at(text: &[u8], reading: Reading) -> Found
    requires place { IsPlace text.now reading }
    requires begins { lines.begins_command text.now reading.at ≡ true }
    requires within { reading.at < length text.now }
    ensures goes { (ms : List Mark) → reading.statement ≡ summary ms → GoesPast text.now (state text.now reading ms) result }
    ensures moves { IsAhead text.now reading result }
{
    let end = line_end(text, reading.at);
    Found {
        part: Part {
            kind: PartKind::Command,
            from: reading.at,
            to: end,
        },
        next: Reading {
            at: end,
            taken: reading.taken,
            statement: reading.statement,
        },
    }
}

/// The command at this place that ends the statement.
fn ending_at(text: &[u8], reading: Reading) -> Found
    requires place { IsPlace text.now reading }
    requires begins { (lines.begins_command text.now reading.at ≡ false) × (spec.is_ending_next text.now reading ≡ true) }
    requires within { reading.at < length text.now }
    ensures goes { (ms : List Mark) → reading.statement ≡ summary ms → GoesPast text.now (state text.now reading ms) result }
    ensures moves { IsAhead text.now reading result }
{
    let end = line_end(text, reading.at);
    Found {
        part: Part {
            kind: PartKind::Ending,
            from: reading.at,
            to: end,
        },
        next: Reading {
            at: end,
            taken: reading.taken,
            statement: Statement::new(),
        },
    }
}

/// Whether a command is at this place that ends the statement, which is no COPY .. FROM STDIN.
fn is_ending_next(text: &[u8], reading: Reading) -> bool
    requires { reading.at < length text.now }
    ensures { result ≡ spec.is_ending_next text.now reading }
{
    begins_ending(text, reading.at) && !reading.statement.is_copy_stdin()
}

/// What comes of the body whose ATOMIC is at this place.
fn step_into(text: &[u8], reading: Reading) -> Step
    requires place { IsPlace text.now reading }
    requires plain { is_command_next text.now reading ≡ false }
    requires begins { IsAtBody text.now reading }
    requires within { reading.at < length text.now }
    ensures goes { Steps text.now reading result }
    ensures moves { MovesOn text.now reading result }
{
    match body_end(text, reading.at) {
        None => Step::Open,
        Some(end) => Step::Part(Found {
            part: Part {
                kind: PartKind::Body,
                from: reading.at,
                to: end,
            },
            next: Reading {
                at: end,
                taken: reading.taken,
                statement: reading.statement,
            },
        }),
    }
}

/// What comes of the token of this kind that ends here.
fn step_over(text: &[u8], reading: Reading, kind: TokKind, end: usize) -> Step
    requires place { IsPlace text.now reading }
    requires plain { is_command_next text.now reading ≡ false }
    requires token { At text.now reading.at kind end }
    ensures goes { Steps text.now reading result }
    ensures moves { MovesOn text.now reading result }
{
    let mark = mark_of(kind, &text[reading.at..end]);
    if reading.statement.begins_body_at(mark) {
        return step_into(text, reading);
    }
    let next = Reading {
        at: end,
        taken: reading.taken,
        statement: reading.statement.after(mark),
    };
    if !reading.statement.ends_copy_at(mark) {
        let is_operator = is_operator(kind);
        return Step::Token(Passed { next, is_operator });
    }
    let feed = line_end(text, end.max(reading.taken));
    if feed + 1 >= text.len() {
        return Step::Token(Passed {
            next: Reading {
                at: end,
                taken: feed,
                statement: next.statement,
            },
            is_operator: false,
        });
    }
    let data_end = data_end(text, feed);
    Step::Part(Found {
        part: Part {
            kind: PartKind::Data,
            from: feed + 1,
            to: data_end,
        },
        next: Reading {
            at: end,
            taken: data_end,
            statement: next.statement,
        },
    })
}

/// What is at the place up to which the text was read.
fn step_at(text: &[u8], reading: Reading, is_after_operator: bool) -> Step
    requires place { IsPlace text.now reading }
    requires within { reading.at < length text.now }
    requires signs { MayFollow text.now reading.at is_after_operator }
    ensures goes { Steps text.now reading result }
    ensures moves { MovesOn text.now reading result }
{
    if begins_command(text, reading.at) {
        return Step::Part(command_at(text, reading));
    }
    if is_ending_next(text, reading) {
        return Step::Part(ending_at(text, reading));
    }
    match token_after(text, reading.at, is_after_operator) {
        Some((kind, end)) => step_over(text, reading, kind, end),
        None => Step::Open,
    }
}

/// The next part that is no SQL.
pub fn next_part(text: &[u8], reading: Reading) -> Option<Found>
    requires { IsPlace text.now reading }
    ensures finds { Finds text.now reading result }
    ensures ahead { IfSome result (IsAhead text.now reading) }
{
    let mut now = reading;
    let mut is_after_operator = false;
    while now.at < text.len() {
        match step_at(text, now, is_after_operator) {
            Step::Token(passed) => {
                now = passed.next;
                is_after_operator = passed.is_operator;
            }
            Step::Part(found) => return Some(found),
            Step::Open => return None,
        }
    }
    None
}
