//! The body of a function that is being read, as far as it tells where the body ends.

ghost use Rattle.std.specs.Prelude.{◌≡◌, ◌==◌, ◌&&◌, ◌||◌, ◌<◌, ◌≤◌, ◌+◌, ◌^◌, [], ◌∷◌, List};
ghost use Rattle.psql_text.specs.Marks as spec;
ghost use Rattle.psql_text.specs.Reading.{block_of};
ghost use Rattle.psql_text.specs.declared.mark.Mark.{Mark};

use crate::mark::Mark;
use crate::statement::plus;

/// What is kept of the tokens of a body that were read, which come after its BEGIN.
#[derive(Clone, Copy)]
pub struct Block {
    /// How many brackets were opened.
    pub opened: usize,
    /// How many brackets were closed.
    pub closed: usize,
    /// How many other BEGIN, and CASE, were read at depth 0.
    pub begun: usize,
    /// How many END were read there.
    pub ended: usize,
}

impl Block {
    /// A body of which nothing was read.
    pub fn new() -> Block
        ensures value { result ≡ block_of [] }
        ensures few { (result.opened ≡ 0) × (result.closed ≡ 0) × (result.begun ≡ 0) × (result.ended ≡ 0) }
    {
        Block {
            opened: 0,
            closed: 0,
            begun: 0,
            ended: 0,
        }
    }

    /// Whether what comes next is at depth 0.
    fn is_outside(self) -> bool
        ensures { result ≡ (self.opened == self.closed) }
    {
        self.opened == self.closed
    }

    /// Whether this mark is its END.
    pub fn ends_at(self, mark: Mark) -> bool
        ensures { (ms : List Mark) → self ≡ block_of ms → result ≡ spec.ends_body ms mark }
    {
        (mark.is_end() && self.is_outside()) && self.begun == self.ended
    }

    /// Whether this mark is a BEGIN or a CASE at depth 0.
    fn begins_at(self, mark: Mark) -> bool
        ensures { result ≡ ((spec.is_begin mark || spec.is_case mark) && (self.opened == self.closed)) }
    {
        (mark.is_begin() || mark.is_case()) && self.is_outside()
    }

    /// Whether this mark is an END at depth 0.
    fn is_ended_by(self, mark: Mark) -> bool
        ensures { result ≡ (spec.is_end mark && (self.opened == self.closed)) }
    {
        mark.is_end() && self.is_outside()
    }

    /// The body with this mark after the others.
    pub fn with(self, mark: Mark) -> Block
        requires { (self.opened + 1 < 2 ^ 64) × (self.closed + 1 < 2 ^ 64) × (self.begun + 1 < 2 ^ 64) × (self.ended + 1 < 2 ^ 64) }
        ensures value { (ms : List Mark) → self ≡ block_of ms → result ≡ block_of (mark ∷ ms) }
        ensures few { (result.opened ≤ self.opened + 1) × (result.closed ≤ self.closed + 1) × (result.begun ≤ self.begun + 1) × (result.ended ≤ self.ended + 1) }
    {
        Block {
            opened: plus(self.opened, mark.is_opener()),
            closed: plus(self.closed, mark.is_closer()),
            begun: plus(self.begun, self.begins_at(mark)),
            ended: plus(self.ended, self.is_ended_by(mark)),
        }
    }
}
