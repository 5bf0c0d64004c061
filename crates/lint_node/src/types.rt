//! The types of columns.

ghost use Rattle.std.specs.Prelude.{◌≡◌, ◌<◌, ◌++◌, [], IfNone, IfSome, option_to_list};
ghost use Rattle.std.specs.Iterator.{YieldsFirst, item_count};
ghost use Rattle.lint_node.specs.ColumnTypes as spec;
ghost use Rattle.lint_node.specs.TypesLeft.{nodes_left, types_left};

use crate::altered::table_actions;
use crate::parts::{added_column, created_elements};
use crate::same::{same_piece, same_type};
use sql_tree::{Action, ColType, Elem, Piece, PieceKind, Stmt, TyKind};
use std::marker::Model;

/// The type of a column of a table's list; none of any other element.
pub fn element_type(e: &Elem) -> Option<ColType>
    ensures { result ≡ spec.element_type e.now }
{
    match e {
        Elem::Column(column) => column.ty,
        _ => None,
    }
}

/// The type of the column that an ADD COLUMN adds; none of any other action.
pub fn added_type(a: &Action) -> Option<ColType>
    ensures { result ≡ spec.added_type a.now }
{
    added_column(a)?.ty
}

/// The type that a SET DATA TYPE gives to a column; none of any other piece.
pub fn set_type(p: &Piece) -> Option<ColType>
    ensures { result ≡ spec.set_type p.now }
{
    if same_piece(p.kind, PieceKind::SetType) {
        p.ty
    } else {
        None
    }
}

/// The nodes of a statement that may have a column type and are still to come.
#[derive(Drop)]
struct TypedNodes<'a> {
    elements: &'a [Elem],
    /// The pieces that are left of an action whose column is already past.
    pieces: &'a [Piece],
    actions: &'a [Action],
}

impl<'a> TypedNodes<'a> {
    #[tactic(auto, unfolding(crate::specs::ColumnTypes::column_types, crate::specs::TypesLeft::types_left))]
    fn new(s: &'a Stmt) -> TypedNodes<'a>
        ensures { types_left result ≡ spec.column_types s.now }
    {
        TypedNodes {
            elements: created_elements(s),
            pieces: &[],
            actions: table_actions(s),
        }
    }

    /// Goes past one node, and gives the type in it; `None` where no node is left.
    #[tactic(auto, unfolding(crate::specs::TypesLeft::types_left))]
    fn step(&mut self) -> Option<Option<ColType>>
        ensures none { IfNone result ((types_left self.old ≡ []) × (types_left self.new ≡ [])) }
        ensures some { IfSome result (λ found. types_left self.old ≡ option_to_list found ++ types_left self.new) }
        ensures fewer { IfSome result (λ found. nodes_left self.new < nodes_left self.old) }
    {
        if let Some((element, others)) = self.elements.split_first() {
            self.elements = others;
            return Some(element_type(element));
        }
        if let Some((piece, others)) = self.pieces.split_first() {
            self.pieces = others;
            return Some(set_type(piece));
        }
        let (action, others) = self.actions.split_first()?;
        self.pieces = action.pieces.as_slice();
        self.actions = others;
        Some(added_type(action))
    }
}

/// The column types of a statement that are still to come, in the order of their places. Contracts see the list of them.
#[derive(Drop)]
pub struct ColumnTypes<'a> {
    nodes: TypedNodes<'a>,
}

impl<'a> Model for ColumnTypes<'a> {
    ghost use Rattle.std.specs.Prelude.{List};
    ghost use Rattle.sql_tree.specs.declared.nodes.ColType.{ColType};
    ghost use Rattle.lint_node.specs.TypesLeft.{types_left};

    ghost Value = { List ColType };

    ghost view = { λ types. types_left types.nodes };
}

/// The column types of a statement, in the order of their places: those of the columns of a CREATE TABLE, those of the
/// columns that an ALTER TABLE adds, and those that its SET DATA TYPE gives. A foreign table has none, nor has CREATE
/// TABLE AS or a domain.
pub fn column_types(s: &Stmt) -> ColumnTypes<'_>
    ensures { result ≡ spec.column_types s.now }
{
    ColumnTypes {
        nodes: TypedNodes::new(s),
    }
}

impl<'a> Iterator for ColumnTypes<'a> {
    type Item = ColType;

    ghost next_gives = { YieldsFirst (λ types. types) };

    ghost remaining = { item_count (λ types. types) };

    fn next(&mut self) -> Option<ColType> {
        while let Some(found) = self.nodes.step() {
            if found.is_some() {
                return found;
            }
        }
        None
    }
}

/// Whether a type is of the kind.
pub fn is_of_kind(kind: TyKind, t: &ColType) -> bool
    ensures { result ≡ spec.is_of_kind kind t.now }
{
    same_type(t.kind, kind)
}

/// Whether a list in brackets follows the type's name, as in `varchar(10)`.
pub fn has_arguments(t: &ColType) -> bool
    ensures { result ≡ spec.has_arguments t.now }
{
    t.args.is_some()
}

/// Whether a type is a `timestamp` that is not one `with time zone`.
pub fn is_without_zone(t: &ColType) -> bool
    ensures { result ≡ spec.is_without_zone t.now }
{
    is_of_kind(TyKind::Timestamp, t) && !t.with_zone
}
