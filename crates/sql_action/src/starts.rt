//! Where the action begins that rows of one kind of statement read, and which constraints a kind of statement adds.

ghost use Rattle.std.specs.Prelude.{◌≡◌};
ghost use Rattle.std.specs.Option.{option_copied};
ghost use Rattle.sql_tree.specs.Action as spec;
ghost use Rattle.sql_tree.specs.Forms.{after_word};

use sql_column::{after_any_name, after_two, after_word, begins_with};
use sql_tree::{Keyword, StmtKind, Symbol, Terminal};

pub(crate) fn first_symbol(terminals: &[Terminal]) -> Symbol
    ensures { result ≡ spec.first_symbol terminals.now }
{
    match terminals {
        [] => Symbol::Other,
        [first, ..] => first.symbol,
    }
}

/// What follows this word where it comes first, else everything.
pub(crate) fn skip_word(word: Keyword, terminals: &[Terminal]) -> &[Terminal]
    ensures { result.now ≡ spec.list_or (after_word word terminals.now) terminals.now }
{
    match after_word(word, terminals) {
        Some(rest) => rest,
        None => terminals,
    }
}

/// What follows ALTER, the word COLUMN where it is present, and a name.
#[tactic(auto, unfolding(sql_tree::specs::Action::after_column))]
fn after_column<'a>(terminals: &'a [Terminal]) -> Option<&'a [Terminal]>
    ensures { option_copied result ≡ spec.after_column terminals.entry.now }
{
    let rest = after_word(Keyword::ALTER, terminals)?;
    after_any_name(skip_word(Keyword::COLUMN, rest))
}

fn after_in_database<'a>(terminals: &'a [Terminal]) -> Option<&'a [Terminal]>
    ensures { option_copied result ≡ spec.after_in_database terminals.entry.now }
{
    let rest = after_two(Keyword::IN, Keyword::DATABASE, terminals)?;
    after_any_name(rest)
}

/// What follows IN DATABASE and a name where these come first, else everything.
#[tactic(auto, unfolding(sql_tree::specs::Action::after_database))]
fn after_database(terminals: &[Terminal]) -> &[Terminal]
    ensures { result.now ≡ spec.after_database terminals.now }
{
    match after_in_database(terminals) {
        Some(rest) => rest,
        None => terminals,
    }
}

/// What the rows of a kind of statement read of an action.
#[tactic(auto, unfolding(sql_tree::specs::Action::own_part))]
pub(crate) fn own_part<'a>(kind: StmtKind, terminals: &'a [Terminal]) -> Option<&'a [Terminal]>
    ensures { option_copied result ≡ spec.own_part kind terminals.entry.now }
{
    match kind {
        StmtKind::AlterView => after_column(terminals),
        StmtKind::AlterRole | StmtKind::AlterUser => Some(after_database(terminals)),
        StmtKind::AlterDatabase | StmtKind::AlterSystem => Some(after_database(terminals)),
        _ => Some(terminals),
    }
}

/// CHECK, NOT NULL or CONSTRAINT.
#[tactic(auto, unfolding(sql_tree::specs::Action::begins_domain_constraint))]
fn begins_domain_constraint(terminals: &[Terminal]) -> bool
    ensures { result ≡ spec.begins_domain_constraint terminals.now }
{
    begins_with(Keyword::CHECK, terminals)
        || begins_with(Keyword::CONSTRAINT, terminals)
        || after_two(Keyword::NOT, Keyword::NULL, terminals).is_some()
}

/// Whether this kind of statement adds the table constraint that comes after ADD.
#[tactic(auto, unfolding(sql_tree::specs::Action::takes_constraint))]
pub(crate) fn takes_constraint(kind: StmtKind, terminals: &[Terminal]) -> bool
    ensures { result ≡ spec.takes_constraint kind terminals.now }
{
    match kind {
        StmtKind::AlterDomain => match after_word(Keyword::ADD, terminals) {
            None => false,
            Some(rest) => begins_domain_constraint(rest),
        },
        _ => true,
    }
}

/// Whether the tail of a statement of this kind may begin so: that of ALTER DEFAULT PRIVILEGES, with GRANT or REVOKE.
pub(crate) fn begins_tail(kind: StmtKind, terminals: &[Terminal]) -> bool
    ensures { result ≡ spec.begins_tail kind terminals.now }
{
    match kind {
        StmtKind::AlterDefaultPrivileges => {
            begins_with(Keyword::GRANT, terminals) || begins_with(Keyword::REVOKE, terminals)
        }
        _ => true,
    }
}
