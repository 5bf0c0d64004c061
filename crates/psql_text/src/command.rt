//! Which lines that begin with a backslash are passed over, and which commands end the statement before them.

ghost use Rattle.std.specs.Prelude.{◌≡◌};
ghost use Rattle.std.specs.List.{position};
ghost use Rattle.std.specs.Str.{bytes_eq};
ghost use Rattle.psql_text.specs.Commands as spec;

use crate::class::{byte, is_blank};

fn word_end(z: &[u8]) -> Option<usize>
    ensures { result ≡ position spec.ends_word z.now }
{
    z.iter().position(|b| is_blank(*b) || *b == b'\\')
}

fn gap_end(z: &[u8]) -> Option<usize>
    ensures { result ≡ position spec.ends_gap z.now }
{
    z.iter().position(|b| !(*b == b' ' || *b == b'\t'))
}

fn feed(z: &[u8]) -> Option<usize>
    ensures { result ≡ position spec.is_line_feed z.now }
{
    z.iter().position(|b| *b == b'\n')
}

fn front_to(z: &[u8], end: Option<usize>) -> &[u8]
    ensures { result.now ≡ spec.front_to z.now end }
{
    match end {
        Some(end) if end <= z.len() => &z[..end],
        _ => z,
    }
}

fn rest_from(z: &[u8], start: Option<usize>) -> &[u8]
    ensures { result.now ≡ spec.rest_from z.now start }
{
    match start {
        Some(start) if start <= z.len() => &z[start..],
        _ => &[],
    }
}

// The word at the front.
fn word(z: &[u8]) -> &[u8]
    ensures { result.now ≡ spec.word z.now }
{
    front_to(z, word_end(z))
}

// The word after it.
fn argument(z: &[u8]) -> &[u8]
    ensures { result.now ≡ spec.argument z.now }
{
    let rest = rest_from(z, word_end(z));
    word(rest_from(rest, gap_end(rest)))
}

fn is(name: &[u8], word: &str) -> bool
    ensures { result ≡ bytes_eq name.now word.now }
{
    name == word.as_bytes()
}

// The session and its connection.
#[tactic(auto, unfolding(crate::specs::Commands::is_about_session))]
fn is_about_session(name: &[u8]) -> bool
    ensures { result ≡ spec.is_about_session name.now }
{
    is(name, "c")
        || is(name, "cd")
        || is(name, "connect")
        || is(name, "conninfo")
        || is(name, "encoding")
        || is(name, "password")
        || is(name, "restrict")
        || is(name, "unrestrict")
}

// The end of the session.
#[tactic(auto, unfolding(crate::specs::Commands::is_leaving))]
fn is_leaving(name: &[u8]) -> bool
    ensures { result ≡ spec.is_leaving name.now }
{
    is(name, "q") || is(name, "quit")
}

// Where answers go, and how they look.
#[tactic(auto, unfolding(crate::specs::Commands::is_about_output))]
fn is_about_output(name: &[u8]) -> bool
    ensures { result ≡ spec.is_about_output name.now }
{
    is(name, "a")
        || is(name, "l")
        || is(name, "o")
        || is(name, "out")
        || is(name, "pset")
        || is(name, "t")
        || is(name, "timing")
        || is(name, "x")
}

// Messages, and the end of the data of COPY.
#[tactic(auto, unfolding(crate::specs::Commands::is_message))]
fn is_message(name: &[u8]) -> bool
    ensures { result ≡ spec.is_message name.now }
{
    is(name, ".")
        || is(name, "echo")
        || is(name, "p")
        || is(name, "print")
        || is(name, "qecho")
        || is(name, "warn")
}

// Variables.
#[tactic(auto, unfolding(crate::specs::Commands::is_about_variable))]
fn is_about_variable(name: &[u8]) -> bool
    ensures { result ≡ spec.is_about_variable name.now }
{
    is(name, "prompt") || is(name, "set") || is(name, "setenv") || is(name, "unset")
}

// What is there, as its name begins with `d`.
fn describes(name: &[u8]) -> bool
    ensures { result ≡ spec.describes name.now }
{
    byte(name, 0) == b'd'
}

fn is_quiet_name(name: &[u8]) -> bool
    ensures { result ≡ spec.is_quiet_name name.now }
{
    is_about_session(name)
        || is_leaving(name)
        || is_about_output(name)
        || is_message(name)
        || is_about_variable(name)
        || describes(name)
}

// Whether it is a variable by which psql takes SQL in another way: each line for a statement, or with transactions of its own.
fn is_switch(name: &[u8]) -> bool
    ensures { result ≡ spec.is_switch name.now }
{
    is(name, "AUTOCOMMIT") || is(name, "SINGLELINE")
}

// Whether another command, or SQL, may follow on the line.
fn goes_on(z: &[u8]) -> bool
    ensures { result ≡ spec.goes_on z.now }
{
    front_to(z, feed(z)).iter().any(|b| *b == b'\\')
}

/// Whether a line of which this is what follows its first backslash is one quiet command.
#[tactic(auto, unfolding(crate::specs::Commands::is_quiet))]
pub fn is_quiet(z: &[u8]) -> bool
    ensures { result ≡ spec.is_quiet z.now }
{
    let name = word(z);
    is_quiet_name(name) && !(is(name, "set") && is_switch(argument(z))) && !goes_on(z)
}

// It sends the statement before it.
#[tactic(auto, unfolding(crate::specs::Commands::is_sending))]
fn is_sending(name: &[u8]) -> bool
    ensures { result ≡ spec.is_sending name.now }
{
    is(name, "g")
        || is(name, "gx")
        || is(name, "gset")
        || is(name, "gdesc")
        || is(name, "crosstabview")
        || is(name, "watch")
}

// It drops the statement before it, or is the edge of a branch.
#[tactic(auto, unfolding(crate::specs::Commands::is_edge))]
fn is_edge(name: &[u8]) -> bool
    ensures { result ≡ spec.is_edge name.now }
{
    is(name, "r")
        || is(name, "reset")
        || is(name, "if")
        || is(name, "elif")
        || is(name, "else")
        || is(name, "endif")
}

// Whether another command, or another program to which psql sends, may follow on the line.
fn leads_on(z: &[u8]) -> bool
    ensures { result ≡ spec.leads_on z.now }
{
    front_to(z, feed(z))
        .iter()
        .any(|b| *b == b'\\' || *b == b'|')
}

/// Whether a line of which this is what follows a backslash has one command there, which ends the statement before it.
#[tactic(auto, unfolding(crate::specs::Commands::is_ending))]
pub fn is_ending(z: &[u8]) -> bool
    ensures { result ≡ spec.is_ending z.now }
{
    let name = word(z);
    (is_sending(name) || is_edge(name)) && !leads_on(z)
}
