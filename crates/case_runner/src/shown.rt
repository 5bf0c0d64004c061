//! The parts of statements in words.
//!
//! Names and words are as they are written. A type is its kind, and between strokes its whole text, its inner text, its
//! name, and its arguments where it has some. A constraint is its kind, its text in quotes, its name, its marks, and its
//! expression with the expression's text. A piece is its kind, its text in quotes, and its type.

use crate::row::{Show, add_part, add_parts, add_quoted, add_source, add_span, add_token};
use case_format::TextBuilder;
use squawk_cli::{Action, ColType, Column, Constraint, Elem, Expr, Parse, Piece, SetPart, Target};

// ---- expressions

fn show_leaf(row: &mut TextBuilder, p: &Parse<'_>, e: &Expr) {
    match e {
        Expr::Literal => row.add("Literal"),
        Expr::Array => row.add("Array"),
        Expr::Call { name, no_args } => {
            row.add("Call");
            add_token(row, p, " ", *name);
            row.push_if(*no_args, " empty");
        }
        Expr::Name(path) => add_span(row, p, "Name ", Some(*path)),
        _ => row.add("Other"),
    }
}

// An expression inside another one: of its parts only the kinds are shown.
fn show_inner(row: &mut TextBuilder, p: &Parse<'_>, e: &Expr) {
    match e {
        Expr::Bin(_) => row.add("Bin"),
        Expr::Cast(inner) => {
            row.add("Cast of ");
            show_leaf(row, p, inner.get());
        }
        Expr::Collate(inner) => {
            row.add("Collate of ");
            show_leaf(row, p, inner.get());
        }
        Expr::IsNotNull(_) => row.add("IsNotNull"),
        _ => show_leaf(row, p, e),
    }
}

fn show_inners(row: &mut TextBuilder, p: &Parse<'_>, parts: &[Expr]) {
    let mut gap = "";
    row.add("Bin of ");
    for part in parts {
        row.add(gap);
        show_inner(row, p, part);
        gap = ", ";
    }
}

impl Show for Expr {
    /// An expression, and the expressions in it.
    fn show(&self, row: &mut TextBuilder, p: &Parse<'_>) {
        match self {
            Expr::Bin(parts) => show_inners(row, p, parts.as_slice()),
            Expr::Cast(inner) => {
                row.add("Cast of ");
                show_inner(row, p, inner.get());
            }
            Expr::Collate(inner) => {
                row.add("Collate of ");
                show_inner(row, p, inner.get());
            }
            Expr::IsNotNull(inner) => {
                row.add("IsNotNull of ");
                show_inner(row, p, inner.get());
            }
            _ => show_leaf(row, p, self),
        }
    }
}

// ---- columns

impl Show for ColType {
    fn show(&self, row: &mut TextBuilder, p: &Parse<'_>) {
        row.debug(" ", &self.kind);
        add_span(row, p, "/", Some(self.whole));
        add_span(row, p, "/", Some(self.inner));
        add_token(row, p, "/", Some(self.name));
        add_span(row, p, "/", self.args);
        row.push_if(self.array, " array");
        row.push_if(self.with_zone, " zone");
    }
}

/// A constraint of a table, a column or a domain.
impl Show for Constraint {
    fn show(&self, row: &mut TextBuilder, p: &Parse<'_>) {
        row.debug("", &self.kind);
        add_quoted(row, p, self.first, self.last);
        add_token(row, p, " name ", self.name);
        row.push_if(self.not_valid, " not valid");
        row.push_if(self.by_index, " by index");
        add_part(row, p, " = ", &self.expr);
        add_span(row, p, " in ", self.expr_span);
    }
}

/// Constraints, each after a comma.
pub(crate) fn show_constraints(row: &mut TextBuilder, p: &Parse<'_>, constraints: &[Constraint]) {
    add_parts(row, p, ", ", ", ", constraints);
}

/// A column: its name, its type, and its constraints.
impl Show for Column {
    fn show(&self, row: &mut TextBuilder, p: &Parse<'_>) {
        add_token(row, p, "", Some(self.name));
        add_part(row, p, "", &self.ty);
        show_constraints(row, p, self.constraints.as_slice());
    }
}

/// An element of a table's list.
impl Show for Elem {
    fn show(&self, row: &mut TextBuilder, p: &Parse<'_>) {
        match self {
            Elem::Column(column) => column.show(row, p),
            Elem::Constraint(constraint) => constraint.show(row, p),
            Elem::Like => row.add("LIKE"),
            Elem::Other => row.add("other"),
        }
    }
}

// ---- actions

impl Show for Piece {
    fn show(&self, row: &mut TextBuilder, p: &Parse<'_>) {
        row.debug(" [", &self.kind);
        add_quoted(row, p, self.first, self.last);
        add_part(row, p, "", &self.ty);
        row.push_if(self.always, " always");
        row.add("]");
    }
}

/// An action: its kind, its text in quotes, and what is known of it.
impl Show for Action {
    fn show(&self, row: &mut TextBuilder, p: &Parse<'_>) {
        row.debug("", &self.kind);
        add_quoted(row, p, self.first, self.last);
        add_token(row, p, " word ", self.word);
        row.push_if(self.guarded, " guarded");
        row.push_if(self.placed, " placed");
        add_token(row, p, " name ", self.name);
        add_span(row, p, " path ", self.path);
        add_part(row, p, " adds ", &self.constraint);
        add_part(row, p, " column ", &self.column);
        add_parts(row, p, "", "", self.pieces.as_slice());
    }
}

// ---- what is written and given

/// A name, with `..` where only a part of it is written.
impl Show for Target {
    fn show(&self, row: &mut TextBuilder, p: &Parse<'_>) {
        add_token(row, p, " ", Some(self.name));
        row.push_if(self.partial, "..");
    }
}

/// A part of a SET clause in brackets: its text, and its targets.
impl Show for SetPart {
    fn show(&self, row: &mut TextBuilder, p: &Parse<'_>) {
        add_source(row, p, " (", self.first, self.last);
        row.add(":");
        row.push_if(self.single, " single");
        add_parts(row, p, "", "", self.targets.as_slice());
        row.add(")");
    }
}
