//! The statement that is being read, as far as it tells whether it is COPY .. FROM STDIN, or makes a function or a procedure.

ghost use Rattle.std.specs.Prelude.{◌≡◌, ◌==◌, ◌&&◌, ◌<◌, ◌≤◌, ◌+◌, ◌^◌, [], ◌∷◌, List};
ghost use Rattle.sql_lex.specs.sql_token.Depth.{one_if};
ghost use Rattle.psql_text.specs.Marks as spec;
ghost use Rattle.psql_text.specs.Reading.{begins_body_of, summary};
ghost use Rattle.psql_text.specs.declared.mark.Mark.{Mark};

use crate::lead::Lead;
use crate::mark::Mark;

/// What is kept of the tokens of a statement that were read.
#[derive(Clone, Copy)]
pub struct Statement {
    /// No significant token was read.
    pub is_empty: bool,
    /// The first word is COPY.
    pub begins_copy: bool,
    /// How many brackets were opened.
    pub opened: usize,
    /// How many brackets were closed.
    pub closed: usize,
    /// A FROM was read at depth 0.
    pub has_from: bool,
    /// The last word is FROM, the first one at depth 0.
    pub ends_in_from: bool,
    /// After it STDIN was read.
    pub has_from_stdin: bool,
    /// The last word is BEGIN, at depth 0.
    pub ends_in_begin: bool,
    /// Its first words.
    pub lead: Lead,
}

/// One more where this holds.
pub(crate) fn plus(n: usize, more: bool) -> usize
    requires { n + 1 < 2 ^ 64 }
    ensures { result ≡ n + one_if more }
{
    if more { n + 1 } else { n }
}

impl Statement {
    /// A statement of which nothing was read.
    pub fn new() -> Statement
        ensures summary { result ≡ summary [] }
        ensures few { (result.opened ≡ 0) × (result.closed ≡ 0) }
    {
        Statement {
            is_empty: true,
            begins_copy: false,
            opened: 0,
            closed: 0,
            has_from: false,
            ends_in_from: false,
            has_from_stdin: false,
            ends_in_begin: false,
            lead: Lead::Empty,
        }
    }

    /// Whether what comes next is at depth 0.
    fn is_outside(self) -> bool
        ensures { result ≡ (self.opened == self.closed) }
    {
        self.opened == self.closed
    }

    /// Whether this mark is its semicolon.
    fn ends_at(self, mark: Mark) -> bool
        ensures { (ms : List Mark) → self ≡ summary ms → result ≡ spec.ends_statement ms mark }
    {
        mark.is_semicolon() && self.is_outside()
    }

    /// Whether it is COPY .. FROM STDIN.
    pub fn is_copy_stdin(self) -> bool
        ensures { result ≡ (self.begins_copy && self.has_from_stdin) }
    {
        self.begins_copy && self.has_from_stdin
    }

    /// Whether this mark is its semicolon, and it is COPY .. FROM STDIN.
    pub fn ends_copy_at(self, mark: Mark) -> bool
        ensures { (ms : List Mark) → self ≡ summary ms → result ≡ spec.ends_copy ms mark }
    {
        self.ends_at(mark) && self.is_copy_stdin()
    }

    /// Whether this mark is the ATOMIC of a body in it.
    pub fn begins_body_at(self, mark: Mark) -> bool
        ensures { result ≡ begins_body_of self mark }
    {
        mark.is_atomic() && (self.ends_in_begin && self.lead.is_whole())
    }

    /// Its first words, with this mark after the others.
    fn lead_with(self, mark: Mark) -> Lead
        ensures { (ms : List Mark) → self ≡ summary ms → result ≡ spec.lead_of (mark ∷ ms) }
    {
        self.lead.after(mark)
    }

    /// Whether its first word is COPY, with this mark after the others.
    fn begins_copy_with(self, mark: Mark) -> bool
        ensures { (ms : List Mark) → self ≡ summary ms → result ≡ spec.begins_copy (mark ∷ ms) }
    {
        if self.is_empty {
            mark.is_copy()
        } else {
            self.begins_copy
        }
    }

    /// Whether this mark is a FROM at depth 0.
    fn is_outer_from(self, mark: Mark) -> bool
        ensures { (ms : List Mark) → self ≡ summary ms → result ≡ (spec.is_from mark && spec.is_outside ms) }
    {
        mark.is_from() && self.is_outside()
    }

    /// Whether it has a FROM at depth 0, with this mark after the others.
    fn has_from_with(self, mark: Mark) -> bool
        ensures { (ms : List Mark) → self ≡ summary ms → result ≡ spec.has_from (mark ∷ ms) }
    {
        self.is_outer_from(mark) || self.has_from
    }

    /// Whether its last word is its first FROM at depth 0, with this mark after the others.
    fn ends_in_from_with(self, mark: Mark) -> bool
        ensures { (ms : List Mark) → self ≡ summary ms → result ≡ spec.ends_in_from (mark ∷ ms) }
    {
        mark.is_from() && self.is_outside() && !self.has_from
    }

    /// Whether it has FROM STDIN, with this mark after the others.
    fn has_from_stdin_with(self, mark: Mark) -> bool
        ensures { (ms : List Mark) → self ≡ summary ms → result ≡ spec.has_from_stdin (mark ∷ ms) }
    {
        (mark.is_stdin() && self.ends_in_from) || self.has_from_stdin
    }

    /// Whether its last word is BEGIN at depth 0, with this mark after the others.
    fn ends_in_begin_with(self, mark: Mark) -> bool
        ensures { (ms : List Mark) → self ≡ summary ms → result ≡ spec.ends_in_begin (mark ∷ ms) }
    {
        mark.is_begin() && self.is_outside()
    }

    /// The statement with this mark after the others, which is not its end.
    fn with(self, mark: Mark) -> Statement
        requires { (self.opened + 1 < 2 ^ 64) × (self.closed + 1 < 2 ^ 64) }
        ensures summary { (ms : List Mark) → self ≡ summary ms → result ≡ summary (mark ∷ ms) }
        ensures few { (result.opened ≤ self.opened + 1) × (result.closed ≤ self.closed + 1) }
    {
        Statement {
            is_empty: false,
            begins_copy: self.begins_copy_with(mark),
            opened: plus(self.opened, mark.is_opener()),
            closed: plus(self.closed, mark.is_closer()),
            has_from: self.has_from_with(mark),
            ends_in_from: self.ends_in_from_with(mark),
            has_from_stdin: self.has_from_stdin_with(mark),
            ends_in_begin: self.ends_in_begin_with(mark),
            lead: self.lead_with(mark),
        }
    }

    /// The statement that goes on after this mark: the next one where it is the semicolon.
    pub fn after(self, mark: Mark) -> Statement
        requires { (self.opened + 1 < 2 ^ 64) × (self.closed + 1 < 2 ^ 64) }
        ensures summary { (ms : List Mark) → self ≡ summary ms → result ≡ summary (spec.marks_after ms mark) }
        ensures few { (result.opened ≤ self.opened + 1) × (result.closed ≤ self.closed + 1) }
    {
        if mark.is_nothing() {
            self
        } else if self.ends_at(mark) {
            Statement::new()
        } else {
            self.with(mark)
        }
    }
}
