//! A walk over a statement and the nodes in it, by place.

ghost use Rattle.std.specs.Prelude.{◌≡◌, ◌++◌, OnOk, OnErr};
ghost use Rattle.std.specs.List.{flat_map};
ghost use Rattle.lint_base.specs.Grown.{GrownBy};
ghost use Rattle.lint_pass.specs.NodeWalk.{at_action, at_constraint, at_parts, at_piece, walked};
ghost use Rattle.lint_pass.specs.declared.nodes.Node.TheVariants as node;

use lint_base::{NoMemory, Reports, TextRange};
use lint_ignore::{
    Action, ActionKind, ConKind, Constraint, Parse, Piece, PieceKind, Stmt, StmtKind,
};
use lint_node::{actions_of, new_constraints};

/// A node in a statement, with the kind of the statement.
#[derive(Clone, Copy)]
pub enum Node {
    /// An action.
    Action(StmtKind, ActionKind),
    /// A constraint of a column that an action adds.
    Constraint(StmtKind, ConKind),
    /// A piece of an action, and whether it says ALWAYS.
    Piece(StmtKind, PieceKind, bool),
}

/// What reports statements and the nodes in them, each by itself.
pub trait NodeReader {
    ghost use Rattle.std.specs.Prelude.{List};
    ghost use Rattle.lint_base.specs.text_pos.Range.{Range};
    ghost use Rattle.lint_ignore.specs.sql_tree.declared.nodes.Stmt.{Stmt};
    ghost use Rattle.lint_ignore.specs.sql_tree.Statement.{Tree};
    ghost use Rattle.lint_base.specs.declared.violation.Violation.{Violation};
    ghost use Rattle.lint_pass.specs.declared.nodes.Node.{Node};

    /// The reports of a statement itself.
    ghost on: { Self → Tree → Stmt → List Violation };

    /// The reports of a node.
    ghost by: { Self → Node → Range → List Violation };

    /// Reports a statement itself.
    fn report_statement(&self, p: &Parse<'_>, s: &Stmt, out: &mut Reports) -> Result<(), NoMemory>
        ensures ok { OnOk result (out.new ≡ out.old ++ on self.now p.now s.now) }
        ensures err { OnErr result (GrownBy out.old out.new (on self.now p.now s.now)) };

    /// Reports a node.
    fn report_node(&self, at: Node, range: TextRange, out: &mut Reports) -> Result<(), NoMemory>
        ensures ok { OnOk result (out.new ≡ out.old ++ by self.now at range) }
        ensures err { OnErr result (GrownBy out.old out.new (by self.now at range)) };
}

#[inline(always)]
fn report_constraint<R: NodeReader>(
    r: &R,
    p: &Parse<'_>,
    kind: StmtKind,
    c: &Constraint,
    out: &mut Reports,
) -> Result<(), NoMemory>
    ensures ok { OnOk result (out.new ≡ out.old ++ at_constraint (R.by r.now) p.now kind c.now) }
    ensures err { OnErr result (GrownBy out.old out.new (at_constraint (R.by r.now) p.now kind c.now)) }
{
    r.report_node(
        Node::Constraint(kind, c.kind),
        p.span_range(c.first, c.last),
        out,
    )
}

#[inline(always)]
fn report_constraints<R: NodeReader>(
    r: &R,
    p: &Parse<'_>,
    kind: StmtKind,
    constraints: &[Constraint],
    out: &mut Reports,
) -> Result<(), NoMemory>
    ensures ok { OnOk result (out.new ≡ out.old ++ flat_map (at_constraint (R.by r.now) p.now kind) constraints.now) }
    ensures err { OnErr result (GrownBy out.old out.new (flat_map (at_constraint (R.by r.now) p.now kind) constraints.now)) }
{
    for c in constraints {
        report_constraint(r, p, kind, c, out)?;
    }
    Ok(())
}

#[inline(always)]
fn report_piece<R: NodeReader>(
    r: &R,
    p: &Parse<'_>,
    kind: StmtKind,
    q: &Piece,
    out: &mut Reports,
) -> Result<(), NoMemory>
    ensures ok { OnOk result (out.new ≡ out.old ++ at_piece (R.by r.now) p.now kind q.now) }
    ensures err { OnErr result (GrownBy out.old out.new (at_piece (R.by r.now) p.now kind q.now)) }
{
    r.report_node(
        Node::Piece(kind, q.kind, q.always),
        p.span_range(q.first, q.last),
        out,
    )
}

#[inline(always)]
fn report_pieces<R: NodeReader>(
    r: &R,
    p: &Parse<'_>,
    kind: StmtKind,
    pieces: &[Piece],
    out: &mut Reports,
) -> Result<(), NoMemory>
    ensures ok { OnOk result (out.new ≡ out.old ++ flat_map (at_piece (R.by r.now) p.now kind) pieces.now) }
    ensures err { OnErr result (GrownBy out.old out.new (flat_map (at_piece (R.by r.now) p.now kind) pieces.now)) }
{
    for q in pieces {
        report_piece(r, p, kind, q, out)?;
    }
    Ok(())
}

#[tactic(auto, using(crate::proofs::PartLaws::second_refused))]
#[inline(always)]
fn report_parts<R: NodeReader>(
    r: &R,
    p: &Parse<'_>,
    kind: StmtKind,
    a: &Action,
    out: &mut Reports,
) -> Result<(), NoMemory>
    ensures ok { OnOk result (out.new ≡ out.old ++ at_parts (R.by r.now) p.now kind a.now) }
    ensures err { OnErr result (GrownBy out.old out.new (at_parts (R.by r.now) p.now kind a.now)) }
{
    report_constraints(r, p, kind, new_constraints(a), out)?;
    report_pieces(r, p, kind, a.pieces.as_slice(), out)?;
    Ok(())
}

#[tactic(auto, using(crate::proofs::PartLaws::second_refused))]
#[inline(always)]
fn report_action<R: NodeReader>(
    r: &R,
    p: &Parse<'_>,
    kind: StmtKind,
    a: &Action,
    out: &mut Reports,
) -> Result<(), NoMemory>
    ensures ok { OnOk result (out.new ≡ out.old ++ at_action (R.by r.now) p.now kind a.now) }
    ensures err { OnErr result (GrownBy out.old out.new (at_action (R.by r.now) p.now kind a.now)) }
{
    r.report_node(
        Node::Action(kind, a.kind),
        p.span_range(a.first, a.last),
        out,
    )?;
    report_parts(r, p, kind, a, out)?;
    Ok(())
}

#[inline(always)]
fn report_actions<R: NodeReader>(
    r: &R,
    p: &Parse<'_>,
    kind: StmtKind,
    actions: &[Action],
    out: &mut Reports,
) -> Result<(), NoMemory>
    ensures ok { OnOk result (out.new ≡ out.old ++ flat_map (at_action (R.by r.now) p.now kind) actions.now) }
    ensures err { OnErr result (GrownBy out.old out.new (flat_map (at_action (R.by r.now) p.now kind) actions.now)) }
{
    for a in actions {
        report_action(r, p, kind, a, out)?;
    }
    Ok(())
}

/// Reports a statement, its actions, and the constraints and pieces in them, by place.
#[tactic(auto, using(crate::proofs::PartLaws::second_refused))]
#[inline(always)]
pub fn report_nodes<R: NodeReader>(
    r: &R,
    p: &Parse<'_>,
    s: &Stmt,
    out: &mut Reports,
) -> Result<(), NoMemory>
    ensures ok { OnOk result (out.new ≡ out.old ++ walked (R.on r.now) (R.by r.now) p.now s.now) }
    ensures err { OnErr result (GrownBy out.old out.new (walked (R.on r.now) (R.by r.now) p.now s.now)) }
{
    r.report_statement(p, s, out)?;
    report_actions(r, p, s.kind, actions_of(s), out)?;
    Ok(())
}
