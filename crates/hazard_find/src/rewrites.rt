//! Statements and actions that write a whole table anew.

ghost use Rattle.std.specs.Prelude.{◌≡◌};
ghost use Rattle.std.specs.List.{list_any};
ghost use Rattle.hazard_find.specs.Rewrites as spec;

use crate::here::Here;
use crate::look::begins;
use crate::refused::moves;
use hazard_base::Text;
use lint_ignore::{
    Action, ActionKind, Body, ColType, Keyword, Parse, Piece, PieceKind, Span, Stmt,
};
use lint_node::{added_type, is_system, same_piece};
use lint_transaction::is_one_name;

const VACUUM_FULL: &str =
    "`vacuum full` rewrites the whole table while nobody can read or write it";

const CLUSTER: &str = "`cluster` rewrites the whole table while nobody can read or write it";

const REINDEX_SYSTEM: &str =
    "`reindex system` rebuilds the indexes of the system catalogs while nobody can use them";

const SET_LOGGED: &str = "`set logged` rewrites the whole table while nobody can read or write it";

const SET_UNLOGGED: &str =
    "`set unlogged` rewrites the whole table while nobody can read or write it";

const SET_TABLESPACE: &str =
    "`set tablespace` copies the whole table while nobody can read or write it";

const SET_ACCESS_METHOD: &str =
    "`set access method` rewrites the whole table while nobody can read or write it";

const SET_EXPRESSION: &str =
    "`set expression` rewrites the whole table while nobody can read or write it";

/// The message for a statement that rewrites a table.
#[tactic(auto, unfolding(crate::specs::Rewrites::rewrites))]
pub(crate) fn rewrites(here: Here, s: &Stmt) -> Option<Text>
    ensures { result ≡ spec.rewrites here s.now }
{
    match s.body {
        Body::Vacuum { full, .. } if full && !here.has_repack => Some(Text::plain(VACUUM_FULL)),
        Body::Cluster { .. } if here.is_old && !here.has_repack => Some(Text::plain(CLUSTER)),
        Body::Reindex { target, .. } if is_system(target) => Some(Text::plain(REINDEX_SYSTEM)),
        _ => None,
    }
}

#[tactic(auto, unfolding(crate::specs::Rewrites::sets_logged))]
fn sets_logged(p: &Parse<'_>, a: &Action) -> bool
    ensures { result ≡ spec.sets_logged p.now a.now }
{
    begins(p, &[Keyword::SET, Keyword::LOGGED], a.first, a.last)
}

#[tactic(auto, unfolding(crate::specs::Rewrites::sets_unlogged))]
fn sets_unlogged(p: &Parse<'_>, a: &Action) -> bool
    ensures { result ≡ spec.sets_unlogged p.now a.now }
{
    begins(p, &[Keyword::SET, Keyword::UNLOGGED], a.first, a.last)
}

#[tactic(auto, unfolding(crate::specs::Rewrites::sets_access_method))]
fn sets_access_method(p: &Parse<'_>, a: &Action) -> bool
    ensures { result ≡ spec.sets_access_method p.now a.now }
{
    begins(
        p,
        &[Keyword::SET, Keyword::ACCESS, Keyword::METHOD],
        a.first,
        a.last,
    )
}

/// The message for an action for which the tree has no kind of its own.
#[tactic(auto, unfolding(crate::specs::Rewrites::other_rewrites))]
fn other_rewrites(p: &Parse<'_>, a: &Action) -> Option<Text>
    ensures { result ≡ spec.other_rewrites p.now a.now }
{
    if sets_logged(p, a) {
        Some(Text::plain(SET_LOGGED))
    } else if sets_unlogged(p, a) {
        Some(Text::plain(SET_UNLOGGED))
    } else if moves(p, a) {
        Some(Text::plain(SET_TABLESPACE))
    } else if sets_access_method(p, a) {
        Some(Text::plain(SET_ACCESS_METHOD))
    } else {
        None
    }
}

#[tactic(auto, unfolding(crate::specs::Rewrites::sets_expression))]
fn sets_expression(pieces: &[Piece]) -> bool
    ensures { result ≡ spec.sets_expression pieces.now }
{
    pieces
        .iter()
        .any(|p| same_piece(p.kind, PieceKind::SetExpression))
}

fn column_rewrites(pieces: &[Piece]) -> Option<Text>
    ensures { result ≡ spec.column_rewrites pieces.now }
{
    if sets_expression(pieces) {
        Some(Text::plain(SET_EXPRESSION))
    } else {
        None
    }
}

/// The message for an action that rewrites a table, except ADD COLUMN.
#[tactic(auto, unfolding(crate::specs::Rewrites::action_rewrites))]
pub(crate) fn action_rewrites(p: &Parse<'_>, a: &Action) -> Option<Text>
    ensures { result ≡ spec.action_rewrites p.now a.now }
{
    match a.kind {
        ActionKind::Other => other_rewrites(p, a),
        ActionKind::AlterColumn => column_rewrites(a.pieces.as_slice()),
        _ => None,
    }
}

#[tactic(auto, unfolding(crate::specs::Rewrites::is_word_serial))]
fn is_word_serial(p: &Parse<'_>, path: Span) -> bool
    ensures { result ≡ spec.is_word_serial p.now path }
{
    is_one_name(p, path, "serial")
        || is_one_name(p, path, "smallserial")
        || is_one_name(p, path, "bigserial")
}

#[tactic(auto, unfolding(crate::specs::Rewrites::is_number_serial))]
fn is_number_serial(p: &Parse<'_>, path: Span) -> bool
    ensures { result ≡ spec.is_number_serial p.now path }
{
    is_one_name(p, path, "serial4")
        || is_one_name(p, path, "serial2")
        || is_one_name(p, path, "serial8")
}

fn is_serial_path(p: &Parse<'_>, path: Span) -> bool
    ensures { result ≡ spec.is_serial_path p.now path }
{
    is_word_serial(p, path) || is_number_serial(p, path)
}

fn is_serial_type(p: &Parse<'_>, t: Option<ColType>) -> bool
    ensures { result ≡ spec.is_serial_type p.now t }
{
    match t {
        Some(t) => !t.array && is_serial_path(p, t.inner),
        None => false,
    }
}

/// Whether an action adds a column of a serial type.
#[tactic(auto, unfolding(crate::specs::Rewrites::adds_serial))]
pub(crate) fn adds_serial(p: &Parse<'_>, a: &Action) -> bool
    ensures { result ≡ spec.adds_serial p.now a.now }
{
    is_serial_type(p, added_type(a))
}
