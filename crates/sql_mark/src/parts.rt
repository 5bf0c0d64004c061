//! Lists of terminals, split at marks of depth 0. Depth is counted from the start of the list.

ghost use Rattle.std.specs.Prelude.{◌≡◌, ◌≤◌, length, None};
ghost use Rattle.std.specs.Option.{option_copied};
ghost use Rattle.sql_tree.specs.Pieces.{before_after_head};
ghost use Rattle.sql_tree.specs.Split as spec;
ghost use Rattle.sql_mark.specs.Marks.{test_of, opens_marks};

use crate::action_marks::{begins_identity_option, begins_policy_part, begins_sequence_option};
use crate::column_marks::{begins_constraint, is_type_end, is_value_end};
use crate::depth::{begins_with, begins_with_both};
use crate::write_marks::{WriteMark, begins_write, is_clause_end, is_equals};
use sql_token::{Keyword, Symbol, Terminal};
use std::marker::Model;

/// What a list is split at or looked through for.
#[derive(Clone, Copy, Debug, PartialEq, Eq)]
pub enum Mark {
    /// `,`
    Comma,
    /// The adjacent words NOT VALID.
    NotValid,
    /// The word INTO after neither the word AS nor a dot.
    Into,
    /// SELECT, INSERT, UPDATE, DELETE, MERGE, VALUES or TABLE: what a statement led by WITH does.
    Verb,
    /// The word GRANT or REVOKE.
    Privileges,
    /// This key word.
    Word(Keyword),
    /// An operator sign, AND or OR.
    Operator,
    /// `::` or COLLATE.
    Cast,
    /// The adjacent words ON COMMIT DROP.
    OnCommitDrop,
    /// A word that ends the type of a column.
    TypeEnd,
    /// A word that ends the expression of a DEFAULT.
    ValueEnd,
    /// The first word of a constraint of a column: CONSTRAINT, or one of its kind.
    Constraint,
    /// A mark of queries and of statements that write.
    Write(WriteMark),
    /// A further option of ALTER SEQUENCE.
    SequenceOption,
    /// A further option of an identity column.
    IdentityOption,
    /// A further part of ALTER POLICY.
    PolicyPart,
}

fn is_comma(symbol: Symbol) -> bool
    ensures { result ≡ spec.is_comma_symbol symbol }
{
    matches!(symbol, Symbol::Comma)
}

fn is_as_or_dot(earlier: Option<Terminal>) -> bool
    ensures { result ≡ spec.is_as_or_dot earlier }
{
    match earlier {
        None => false,
        Some(t) => t.is_keyword(Keyword::AS) || t.is_dot(),
    }
}

fn is_verb_word(word: Keyword) -> bool
    ensures { result ≡ spec.is_verb_word word }
{
    match word {
        Keyword::SELECT | Keyword::INSERT | Keyword::UPDATE | Keyword::DELETE => true,
        Keyword::MERGE | Keyword::VALUES | Keyword::TABLE => true,
        _ => false,
    }
}

fn is_verb(symbol: Symbol) -> bool
    ensures { result ≡ spec.is_verb_symbol symbol }
{
    match symbol {
        Symbol::Keyword(word) => is_verb_word(word),
        _ => false,
    }
}

fn is_operator_symbol(symbol: Symbol) -> bool
    ensures { result ≡ spec.is_operator_symbol symbol }
{
    match symbol {
        Symbol::Star | Symbol::Equals | Symbol::EqualsOperator | Symbol::Operator => true,
        _ => false,
    }
}

fn is_colon(symbol: Symbol) -> bool
    ensures { result ≡ spec.is_colon_symbol symbol }
{
    matches!(symbol, Symbol::Colon)
}

fn begins_with_colon(after: &[Terminal]) -> bool
    ensures { result ≡ spec.begins_with_colon after.now }
{
    match after {
        [] => false,
        [first, ..] => is_colon(first.symbol),
    }
}

fn begins_operator(first: Terminal) -> bool
    ensures { result ≡ spec.is_operator first }
{
    is_operator_symbol(first.symbol)
        || first.is_keyword(Keyword::AND)
        || first.is_keyword(Keyword::OR)
}

fn begins_cast(first: Terminal, after: &[Terminal]) -> bool
    ensures { result ≡ spec.is_cast first after.now }
{
    first.is_keyword(Keyword::COLLATE) || is_colon(first.symbol) && begins_with_colon(after)
}

fn begins_on_commit_drop(first: Terminal, after: &[Terminal]) -> bool
    ensures { result ≡ spec.is_on_commit_drop first after.now }
{
    first.is_keyword(Keyword::ON) && begins_with_both(Keyword::COMMIT, Keyword::DROP, after)
}

/// Whether the mark begins at `first`, which is between `earlier` and `after`.
#[inline(never)]
#[tactic(auto, unfolding(sql_tree::specs::Split::comma, sql_tree::specs::Split::not_valid, sql_tree::specs::Split::into, sql_tree::specs::Split::verb, sql_tree::specs::Split::privileges, sql_tree::specs::Split::word, sql_tree::specs::Split::operator, sql_tree::specs::Split::cast, sql_tree::specs::Split::on_commit_drop, sql_tree::specs::ColumnMarks::type_end, sql_tree::specs::ColumnMarks::value_end))]
fn begins(mark: Mark, earlier: Option<Terminal>, first: Terminal, after: &[Terminal]) -> bool
    ensures { result ≡ test_of mark earlier first after.now }
{
    match mark {
        Mark::Comma => is_comma(first.symbol),
        Mark::NotValid => first.is_keyword(Keyword::NOT) && begins_with(Keyword::VALID, after),
        Mark::Into => first.is_keyword(Keyword::INTO) && !is_as_or_dot(earlier),
        Mark::Verb => is_verb(first.symbol),
        Mark::Privileges => first.is_keyword(Keyword::GRANT) || first.is_keyword(Keyword::REVOKE),
        Mark::Word(word) => first.is_keyword(word),
        Mark::Operator => begins_operator(first),
        Mark::Cast => begins_cast(first, after),
        Mark::OnCommitDrop => begins_on_commit_drop(first, after),
        Mark::TypeEnd => is_type_end(first),
        Mark::ValueEnd => is_value_end(first.symbol),
        Mark::Constraint => begins_constraint(earlier, first, after),
        Mark::Write(mark) => begins_write(mark, earlier, first, after),
        Mark::SequenceOption => begins_sequence_option(earlier, first, after),
        Mark::IdentityOption => begins_identity_option(earlier, first, after),
        Mark::PolicyPart => begins_policy_part(earlier, first, after),
    }
}

/// Whether any mark begins with this symbol.
fn opens_marks(symbol: Symbol) -> bool
    ensures { result ≡ opens_marks symbol }
{
    match symbol {
        Symbol::Keyword(_) | Symbol::Comma | Symbol::Colon => true,
        Symbol::Star | Symbol::Equals | Symbol::EqualsOperator | Symbol::Operator => true,
        _ => false,
    }
}

/// The same as `begins`, decided here for commas, at which most lists are cut, and for symbols that begin no mark.
#[inline(always)]
#[tactic(auto, unfolding(sql_tree::specs::Split::comma), using(crate::proofs::Opens::no_mark))]
fn begins_soon(mark: Mark, earlier: Option<Terminal>, first: Terminal, after: &[Terminal]) -> bool
    ensures { result ≡ test_of mark earlier first after.now }
{
    match mark {
        Mark::Comma => is_comma(first.symbol),
        _ => opens_marks(first.symbol) && begins(mark, earlier, first, after),
    }
}

// ---- how many terminals come before a mark

/// How many terminals come before the first mark of depth 0 that is none of the first `head` terminals; all, where
/// there is no such mark. `earlier` comes before the list.
#[inline(always)]
pub fn before_after_head(
    mark: Mark,
    head: usize,
    earlier: Option<Terminal>,
    terminals: &[Terminal],
) -> usize
    ensures value { result ≡ before_after_head (test_of mark) head earlier 0 0 terminals.now }
    ensures within { result ≤ length terminals.now }
{
    let mut left = terminals;
    let mut skip = head;
    let mut previous = earlier;
    let mut count = 0usize;
    let mut opened = 0usize;
    let mut closed = 0usize;
    while let [first, rest @ ..] = left {
        if skip == 0 && opened == closed && begins_soon(mark, previous, *first, rest) {
            return count;
        }
        skip = skip.saturating_sub(1);
        if first.is_opener() {
            opened += 1;
        }
        if first.is_closer() {
            closed += 1;
        }
        count += 1;
        previous = Some(*first);
        left = rest;
    }
    count
}

/// How many terminals come before the first mark of depth 0, in a loop of its own for commas, which looks at nothing but
/// the symbols.
#[inline(always)]
#[tactic(auto, using(crate::proofs::Heads::no_head))]
fn before_next(mark: Mark, earlier: Option<Terminal>, terminals: &[Terminal]) -> usize
    ensures value { result ≡ spec.before_from (test_of mark) earlier 0 0 terminals.now }
    ensures within { result ≤ length terminals.now }
{
    match mark {
        Mark::Comma => before_after_head(Mark::Comma, 0, earlier, terminals),
        _ => before_after_head(mark, 0, earlier, terminals),
    }
}

/// How many terminals come before the first `=` of depth 0.
#[tactic(auto, unfolding(sql_tree::specs::Split::equals), using(crate::proofs::Heads::equals_alone))]
fn before_equals(terminals: &[Terminal]) -> usize
    ensures value { result ≡ spec.before_from spec.equals None 0 0 terminals.now }
    ensures within { result ≤ length terminals.now }
{
    let mut left = terminals;
    let mut count = 0usize;
    let mut opened = 0usize;
    let mut closed = 0usize;
    while let [first, rest @ ..] = left {
        if opened == closed && is_equals(first.symbol) {
            return count;
        }
        if first.is_opener() {
            opened += 1;
        }
        if first.is_closer() {
            closed += 1;
        }
        count += 1;
        left = rest;
    }
    count
}

/// How many terminals come before the end of a SET clause, at depth 0.
#[tactic(auto, unfolding(sql_tree::specs::Split::clause_end), using(crate::proofs::Heads::clause_end_alone))]
fn before_clause_end(terminals: &[Terminal]) -> usize
    ensures value { result ≡ spec.before_from spec.clause_end None 0 0 terminals.now }
    ensures within { result ≤ length terminals.now }
{
    let mut left = terminals;
    let mut count = 0usize;
    let mut opened = 0usize;
    let mut closed = 0usize;
    while let [first, rest @ ..] = left {
        if opened == closed && is_clause_end(*first) {
            return count;
        }
        if first.is_opener() {
            opened += 1;
        }
        if first.is_closer() {
            closed += 1;
        }
        count += 1;
        left = rest;
    }
    count
}

/// How many terminals come before the first mark of depth 0; all, where there is none. What SET clauses are cut at has
/// loops of its own.
#[tactic(auto, unfolding(sql_tree::specs::Split::before), using(crate::proofs::Heads::no_head))]
pub fn terminals_before(mark: Mark, terminals: &[Terminal]) -> usize
    ensures value { result ≡ spec.before (test_of mark) terminals.now }
    ensures within { result ≤ length terminals.now }
{
    match mark {
        Mark::Write(WriteMark::Equals) => before_equals(terminals),
        Mark::Write(WriteMark::ClauseEnd) => before_clause_end(terminals),
        _ => before_after_head(mark, 0, None, terminals),
    }
}

/// Whether the mark is at depth 0.
pub fn has_mark(mark: Mark, terminals: &[Terminal]) -> bool
    ensures { result ≡ spec.has (test_of mark) terminals.now }
{
    terminals_before(mark, terminals) < terminals.len()
}

/// The terminals from the first mark of depth 0 on; none, where there is no such mark.
pub fn from_mark(mark: Mark, terminals: &[Terminal]) -> &[Terminal]
    ensures { result.now ≡ spec.from_mark (test_of mark) terminals.now }
{
    let count = terminals_before(mark, terminals);
    &terminals[count..]
}

/// What comes before the first mark of depth 0.
pub fn until(mark: Mark, terminals: &[Terminal]) -> &[Terminal]
    ensures { result.now ≡ spec.until (test_of mark) terminals.now }
{
    let count = terminals_before(mark, terminals);
    &terminals[..count]
}

/// The parts between the marks of depth 0, one after another. There is one more than there are marks, and a part may be
/// empty. Contracts see the list of the parts that are still to come.
#[derive(Drop)]
pub struct Parts<'a> {
    mark: Mark,
    earlier: Option<Terminal>,
    left: &'a [Terminal],
    more: bool,
}

impl<'a> Model for Parts<'a> {
    ghost use Rattle.std.specs.Prelude.{List};
    ghost use Rattle.sql_token.specs.declared.terminal.Terminal.{Terminal};

    ghost Value = { List (List Terminal) };

    ghost use Rattle.sql_mark.specs.PartsLeft.{parts_left};

    ghost view = { parts_left };
}

impl<'a> Parts<'a> {
    #[tactic(auto, unfolding(sql_tree::specs::Split::split))]
    pub fn new(mark: Mark, terminals: &'a [Terminal]) -> Parts<'a>
        ensures { result ≡ spec.split (test_of mark) terminals.now }
    {
        Parts {
            mark,
            earlier: None,
            left: terminals,
            more: true,
        }
    }

    /// The next part; `None` where none is left.
    #[tactic(auto, using(crate::proofs::Cuts::only_part, crate::proofs::Cuts::first_part))]
    pub fn next_part(&mut self) -> Option<&'a [Terminal]>
        ensures { spec.uncons self.old ≡ (option_copied result, self.new) }
    {
        if !self.more {
            return None;
        }
        let count = before_next(self.mark, self.earlier, self.left);
        let part = &self.left[..count];
        if count < self.left.len() {
            self.earlier = Some(self.left[count]);
            self.left = &self.left[count + 1..];
            Some(part)
        } else {
            self.more = false;
            Some(part)
        }
    }
}
