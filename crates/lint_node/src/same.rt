//! Equality of kinds.

ghost use Rattle.std.specs.Prelude.{◌≡◌};
ghost use Rattle.lint_node.specs.Same.{same_action, same_constraint, same_kind, same_piece, same_type};

use sql_tree::{ActionKind, ConKind, PieceKind, StmtKind, TyKind};

#[tactic(auto, unfolding(crate::specs::Same::same_kind))]
#[inline(always)]
pub fn same_kind(a: StmtKind, b: StmtKind) -> bool
    ensures { result ≡ same_kind a b }
{
    a == b
}

#[tactic(auto, unfolding(crate::specs::Same::same_action))]
#[inline(always)]
pub fn same_action(a: ActionKind, b: ActionKind) -> bool
    ensures { result ≡ same_action a b }
{
    a == b
}

#[tactic(auto, unfolding(crate::specs::Same::same_piece))]
#[inline(always)]
pub fn same_piece(a: PieceKind, b: PieceKind) -> bool
    ensures { result ≡ same_piece a b }
{
    a == b
}

#[tactic(auto, unfolding(crate::specs::Same::same_constraint))]
#[inline(always)]
pub fn same_constraint(a: ConKind, b: ConKind) -> bool
    ensures { result ≡ same_constraint a b }
{
    a == b
}

#[tactic(auto, unfolding(crate::specs::Same::same_type))]
#[inline(always)]
pub fn same_type(a: TyKind, b: TyKind) -> bool
    ensures { result ≡ same_type a b }
{
    a == b
}
