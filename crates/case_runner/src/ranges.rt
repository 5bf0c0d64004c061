//! The ranges of statements, actions and constraints, in bytes.

use crate::row::{add_span_range, add_token};
use crate::shown_body::{actions_of, show_head};
use case_format::TextBuilder;
use squawk_cli::{Action, Body, Constraint, Parse, Stmt};

fn show_constraint(row: &mut TextBuilder, p: &Parse<'_>, c: &Constraint) {
    add_span_range(row, p, "", c.first, c.last);
    row.debug(" ", &c.kind);
    add_token(row, p, " name ", c.name);
    row.push_if(c.not_valid, " not valid");
    row.push_if(c.by_index, " index");
}

// The range of each action, and the range, kind, name and marks of the constraint that it adds.
fn show_actions(row: &mut TextBuilder, p: &Parse<'_>, actions: &[Action]) {
    for action in actions {
        add_span_range(row, p, " (", action.first, action.last);
        row.add(" ");
        if let Some(constraint) = &action.constraint {
            show_constraint(row, p, constraint);
        }
        row.add(")");
    }
}

/// A statement with its range, and its actions in brackets with theirs. Used by tests only; no contract.
pub(crate) fn show_ranges(row: &mut TextBuilder, p: &Parse<'_>, s: &Stmt) {
    row.debug("", &s.kind);
    add_span_range(row, p, " ", s.first, s.last);
    show_head(row, p, &s.body);
    match &s.body {
        Body::Kept | Body::End { .. } | Body::Table { .. } | Body::Index { .. } => (),
        Body::Into { .. } | Body::Alter { .. } => (),
        _ => row.add(" more"),
    }
    show_actions(row, p, actions_of(&s.body));
}
