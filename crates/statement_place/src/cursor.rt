//! The statements that parts of a text are in.
ghost use Rattle.std.specs.Prelude.{◌≡◌, ◌≤◌, slice_get};
ghost use Rattle.sql_tree.specs.Statement.{Tree};
ghost use Rattle.statement_place.specs.Statements as spec;
ghost use Rattle.statement_place.specs.Statements.{IsCursor};

use sql_tree::{Parse, Stmt, TextRange, TextSize};

/// How far the statements of a text were gone through. Places may come in any order; where each is at or behind the last one, each
/// statement is looked at once.
#[derive(Clone, Copy)]
pub struct Cursor {
    /// So many statements end at or before the place.
    pub number: usize,
    /// The place.
    pub place: u32,
}

// A cursor before the first statement.
fn start() -> Cursor
    ensures cursor { (file : Tree) → IsCursor file result }
    ensures place { result.place ≡ 0 }
{
    Cursor {
        number: 0,
        place: 0,
    }
}

// Whether a statement ends behind a place.
#[tactic(auto, unfolding(crate::specs::Statements::ends_behind))]
fn ends_behind(file: &Parse<'_>, place: u32, stmt: &Stmt) -> bool
    ensures { result ≡ spec.ends_behind file.now place stmt.now }
{
    place < file.stmt_range(stmt).end().raw()
}

// Goes past the statements that end at or before a place.
fn go_past(file: &Parse<'_>, cursor: Cursor, place: u32) -> usize
    requires cursor { IsCursor file.now cursor }
    requires behind { cursor.place ≤ place }
    ensures cursor { IsCursor file.now (record { number = result; place = place }) }
    ensures end { spec.IsStop file.now place result }
{
    let stmts = file.tree().stmts.as_slice();
    let mut number = cursor.number;
    while let Some(stmt) = stmts.get(number) {
        if ends_behind(file, place, stmt) {
            return number;
        }
        number += 1;
    }
    number
}

// Goes to a place.
fn go_to(file: &Parse<'_>, cursor: Cursor, place: u32) -> usize
    requires { IsCursor file.now cursor }
    ensures cursor { IsCursor file.now (record { number = result; place = place }) }
    ensures end { spec.IsStop file.now place result }
{
    if cursor.place <= place {
        go_past(file, cursor, place)
    } else {
        go_past(file, start(), place)
    }
}

// Whether a part is in another one.
fn is_within(outer: TextRange, inner: TextRange) -> bool
    ensures { result ≡ spec.is_within outer inner }
{
    outer.start().raw() <= inner.start().raw() && inner.end().raw() <= outer.end().raw()
}

// The statement of this number, where a part is in it; the part itself where it is not.
#[tactic(auto, unfolding(crate::specs::Statements::part_in))]
fn part_in(file: &Parse<'_>, number: usize, range: TextRange) -> TextRange
    ensures { result ≡ spec.part_in file.now (slice_get file.now.stmts number) range }
{
    match file.tree().stmts.as_slice().get(number) {
        None => range,
        Some(stmt) => {
            let all = file.stmt_range(stmt);
            if is_within(all, range) { all } else { range }
        }
    }
}

impl Cursor {
    /// A cursor before the first statement.
    pub fn new() -> Cursor
        ensures { (file : Tree) → IsCursor file result }
    {
        start()
    }

    /// Goes to a place: the number of the first statement that ends behind it, from 0 on, or the number of statements where there is none.
    #[tactic(auto, using(crate::proofs::Stops::numbered))]
    pub fn number_behind(&mut self, file: &Parse<'_>, place: TextSize) -> usize
        requires { IsCursor file.now self.old }
        ensures cursor { IsCursor file.now self.new }
        ensures number { result ≡ spec.number_behind file.now place }
    {
        let place = place.raw();
        let number = go_to(file, *self, place);
        *self = Cursor { number, place };
        number
    }

    /// Goes to a part: the statement that it is in, from its first token to its last, or the part itself where it is in none.
    #[tactic(auto, using(crate::proofs::Stops::found))]
    pub fn statement_of(&mut self, file: &Parse<'_>, range: TextRange) -> TextRange
        requires { IsCursor file.now self.old }
        ensures cursor { IsCursor file.now self.new }
        ensures value { result ≡ spec.statement_of file.now range }
    {
        let place = range.start().raw();
        let number = go_to(file, *self, place);
        *self = Cursor { number, place };
        part_in(file, number, range)
    }
}
