//! What rows report of a statement and of the nodes in it, and one reader for all of them.

ghost use Rattle.std.specs.Prelude.{◌≡◌, ◌++◌, OnOk, OnErr, map};
ghost use Rattle.std.specs.List.{flat_map};
ghost use Rattle.lint_base.specs.Grown.{GrownBy};
ghost use Rattle.pass_object.specs.Changes as spec;
ghost use Rattle.pass_object.specs.Changes.{at_action, at_constraint, at_parts, at_piece, at_pieces, at_statement, by, by_row, by_rows, lent};

use crate::words::changes_values;
use lint_base::{Reports, Rule, RuleSet, Text, Violation};
use lint_pass::{
    Action, ActionKind, Body, ConKind, Constraint, NoMemory, Parse, Piece, PieceKind, Stmt,
    TextRange, actions_of, new_constraints, same_action, same_constraint, same_piece,
};

/// What a row reports, in statements of one kind.
#[derive(Clone, Copy)]
pub(crate) enum Spot {
    /// A CREATE INDEX with UNIQUE.
    UniqueIndex,
    /// Actions of the kind.
    Action(ActionKind),
    /// Actions that change when a constraint is enforced.
    Timing,
    /// Constraints of the kind of a column that is added.
    NewColumn(ConKind),
    /// Pieces of the kind.
    Piece(PieceKind),
    /// Pieces of the kind that are all of their action.
    OnePiece(PieceKind),
    /// Pieces of the kind that are not all of their action.
    AmongPieces(PieceKind),
    /// Options of a sequence that change the values which it gives.
    SequencePiece,
}

/// What spots look at in a node of a statement.
#[derive(Clone, Copy)]
pub(crate) enum Node {
    /// A statement, and whether it is a CREATE INDEX with UNIQUE.
    Statement(bool),
    /// An action, and whether it changes when a constraint is enforced.
    Action(ActionKind, bool),
    /// A constraint of a column that an action adds.
    Constraint(ConKind),
    /// A piece of an action, whether it is all of it, and whether it changes the values that a sequence gives.
    Piece(PieceKind, bool, bool),
}

/// A rule, what it reports, and the message.
pub(crate) type Row = (Rule, Spot, &'static str);

/// Rows, and the rules that are enabled.
#[derive(Clone, Copy)]
pub(crate) struct Changes {
    pub rules: RuleSet,
    pub rows: &'static [Row],
}

/// Whether the spot is that of the node.
fn fits(spot: Spot, at: Node) -> bool
    ensures { result ≡ spec.fits spot at }
{
    match (spot, at) {
        (Spot::UniqueIndex, Node::Statement(is_unique)) => is_unique,
        (Spot::Action(k), Node::Action(a, _)) => same_action(k, a),
        (Spot::Timing, Node::Action(_, is_timing)) => is_timing,
        (Spot::NewColumn(k), Node::Constraint(c)) => same_constraint(k, c),
        (Spot::Piece(k), Node::Piece(q, _, _)) => same_piece(k, q),
        (Spot::OnePiece(k), Node::Piece(q, is_all, _)) => same_piece(k, q) && is_all,
        (Spot::AmongPieces(k), Node::Piece(q, is_all, _)) => same_piece(k, q) && !is_all,
        (Spot::SequencePiece, Node::Piece(_, _, is_changing)) => is_changing,
        _ => false,
    }
}

/// Whether the statement is a CREATE INDEX with UNIQUE.
fn is_unique(s: &Stmt) -> bool
    ensures { result ≡ spec.is_unique s.now.body }
{
    match &s.body {
        Body::Index { unique, .. } => *unique,
        _ => false,
    }
}

fn is_timing_piece(q: &Piece) -> bool
    ensures { result ≡ spec.is_timing_piece q.now }
{
    same_piece(q.kind, PieceKind::Enforced)
        || same_piece(q.kind, PieceKind::Deferrable)
        || same_piece(q.kind, PieceKind::NotDeferrable)
        || same_piece(q.kind, PieceKind::Initially)
}

fn has_timing_piece(pieces: &[Piece]) -> bool
    ensures { result ≡ spec.has_timing_piece pieces.now }
{
    pieces.iter().any(|q| is_timing_piece(q))
}

/// Whether the action changes when a constraint is enforced, or whether it is.
fn is_timing(a: &Action) -> bool
    ensures { result ≡ spec.is_timing a.now }
{
    same_action(a.kind, ActionKind::AlterConstraint) && has_timing_piece(a.pieces.as_slice())
}

/// Whether the action has one piece.
fn has_one_piece(a: &Action) -> bool
    ensures { result ≡ spec.has_one_piece a.now }
{
    a.pieces.as_slice().len() == 1
}

impl Changes {
    /// Reports a node where the row's rule is enabled and the row is of its spot.
    fn report_by(
        &self,
        row: &Row,
        at: Node,
        range: TextRange,
        out: &mut Reports,
    ) -> Result<(), NoMemory>
        ensures ok { OnOk result (out.new ≡ out.old ++ by_row self.now.rules at range (lent row.now)) }
        ensures err { OnErr result (out.new ≡ out.old) }
    {
        if self.rules.contains(row.0) && fits(row.1, at) {
            out.push(Violation::for_range(row.0, Text::fixed(row.2), range))
        } else {
            Ok(())
        }
    }

    /// Reports a node by each row.
    fn report_node(&self, at: Node, range: TextRange, out: &mut Reports) -> Result<(), NoMemory>
        ensures ok { OnOk result (out.new ≡ out.old ++ by self.now at range) }
        ensures err { OnErr result (GrownBy out.old out.new (by self.now at range)) }
    {
        for row in self.rows {
            self.report_by(row, at, range, out)?;
        }
        Ok(())
    }

    fn report_constraint(
        &self,
        p: &Parse<'_>,
        c: &Constraint,
        out: &mut Reports,
    ) -> Result<(), NoMemory>
        ensures ok { OnOk result (out.new ≡ out.old ++ at_constraint (by self.now) p.now c.now) }
        ensures err { OnErr result (GrownBy out.old out.new (at_constraint (by self.now) p.now c.now)) }
    {
        self.report_node(Node::Constraint(c.kind), p.span_range(c.first, c.last), out)
    }

    fn report_constraints(
        &self,
        p: &Parse<'_>,
        constraints: &[Constraint],
        out: &mut Reports,
    ) -> Result<(), NoMemory>
        ensures ok { OnOk result (out.new ≡ out.old ++ flat_map (at_constraint (by self.now) p.now) constraints.now) }
        ensures err { OnErr result (GrownBy out.old out.new (flat_map (at_constraint (by self.now) p.now) constraints.now)) }
    {
        for c in constraints {
            self.report_constraint(p, c, out)?;
        }
        Ok(())
    }

    fn report_piece(
        &self,
        p: &Parse<'_>,
        is_all: bool,
        q: &Piece,
        out: &mut Reports,
    ) -> Result<(), NoMemory>
        ensures ok { OnOk result (out.new ≡ out.old ++ at_piece (by self.now) p.now is_all q.now) }
        ensures err { OnErr result (GrownBy out.old out.new (at_piece (by self.now) p.now is_all q.now)) }
    {
        self.report_node(
            Node::Piece(q.kind, is_all, changes_values(p, q)),
            p.span_range(q.first, q.last),
            out,
        )
    }

    fn report_pieces(
        &self,
        p: &Parse<'_>,
        is_all: bool,
        pieces: &[Piece],
        out: &mut Reports,
    ) -> Result<(), NoMemory>
        ensures ok { OnOk result (out.new ≡ out.old ++ flat_map (at_piece (by self.now) p.now is_all) pieces.now) }
        ensures err { OnErr result (GrownBy out.old out.new (flat_map (at_piece (by self.now) p.now is_all) pieces.now)) }
    {
        for q in pieces {
            self.report_piece(p, is_all, q, out)?;
        }
        Ok(())
    }

    fn report_pieces_of(&self, p: &Parse<'_>, a: &Action, out: &mut Reports) -> Result<(), NoMemory>
        ensures ok { OnOk result (out.new ≡ out.old ++ at_pieces (by self.now) p.now a.now) }
        ensures err { OnErr result (GrownBy out.old out.new (at_pieces (by self.now) p.now a.now)) }
    {
        self.report_pieces(p, has_one_piece(a), a.pieces.as_slice(), out)
    }

    #[tactic(auto, using(lint_pass::proofs::PartLaws::second_refused))]
    fn report_parts(&self, p: &Parse<'_>, a: &Action, out: &mut Reports) -> Result<(), NoMemory>
        ensures ok { OnOk result (out.new ≡ out.old ++ at_parts (by self.now) p.now a.now) }
        ensures err { OnErr result (GrownBy out.old out.new (at_parts (by self.now) p.now a.now)) }
    {
        self.report_constraints(p, new_constraints(a), out)?;
        self.report_pieces_of(p, a, out)?;
        Ok(())
    }

    #[tactic(auto, using(lint_pass::proofs::PartLaws::second_refused))]
    fn report_action(&self, p: &Parse<'_>, a: &Action, out: &mut Reports) -> Result<(), NoMemory>
        ensures ok { OnOk result (out.new ≡ out.old ++ at_action (by self.now) p.now a.now) }
        ensures err { OnErr result (GrownBy out.old out.new (at_action (by self.now) p.now a.now)) }
    {
        self.report_node(
            Node::Action(a.kind, is_timing(a)),
            p.span_range(a.first, a.last),
            out,
        )?;
        self.report_parts(p, a, out)?;
        Ok(())
    }

    fn report_actions(
        &self,
        p: &Parse<'_>,
        actions: &[Action],
        out: &mut Reports,
    ) -> Result<(), NoMemory>
        ensures ok { OnOk result (out.new ≡ out.old ++ flat_map (at_action (by self.now) p.now) actions.now) }
        ensures err { OnErr result (GrownBy out.old out.new (flat_map (at_action (by self.now) p.now) actions.now)) }
    {
        for a in actions {
            self.report_action(p, a, out)?;
        }
        Ok(())
    }

    /// Reports a statement, its actions, and the constraints and pieces in them, by place.
    #[tactic(auto, using(lint_pass::proofs::PartLaws::second_refused))]
    pub(crate) fn report(&self, p: &Parse<'_>, s: &Stmt, out: &mut Reports) -> Result<(), NoMemory>
        ensures ok { OnOk result (out.new ≡ out.old ++ at_statement (by self.now) p.now s.now) }
        ensures err { OnErr result (GrownBy out.old out.new (at_statement (by self.now) p.now s.now)) }
    {
        self.report_node(Node::Statement(is_unique(s)), p.stmt_range(s), out)?;
        self.report_actions(p, actions_of(s), out)?;
        Ok(())
    }
}
