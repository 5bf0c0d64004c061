//! What is known of a statement, in words.

use crate::row::{Show, add_part, add_parts, add_span, add_token};
use crate::shown::show_constraints;
use case_format::TextBuilder;
use sqlite_items::Items;
use squawk_cli::{
    Action, Body, Elem, Parse, SetPart, Span, Stmt, TableWrite, Target, ViewDefinition,
};

impl Show for ViewDefinition {
    fn show(&self, row: &mut TextBuilder, p: &Parse<'_>) {
        row.push_if(self.replace, " replace");
        row.add(" columns");
        add_parts(row, p, "", "", self.columns.as_slice());
        row.add(" targets");
        add_parts(row, p, "", "", self.targets.as_slice());
    }
}

/// A SET clause.
impl Show for Items<SetPart> {
    fn show(&self, row: &mut TextBuilder, p: &Parse<'_>) {
        row.add(" set");
        add_parts(row, p, "", "", self.as_slice());
    }
}

/// A list of columns.
impl Show for Items<Target> {
    fn show(&self, row: &mut TextBuilder, p: &Parse<'_>) {
        row.add(" list");
        add_parts(row, p, "", "", self.as_slice());
    }
}

impl Show for TableWrite {
    fn show(&self, row: &mut TextBuilder, p: &Parse<'_>) {
        add_span(row, p, " path ", Some(self.path));
        add_parts(row, p, "", "", self.sets.as_slice());
        add_parts(row, p, "", "", self.lists.as_slice());
    }
}

/// A path.
impl Show for Span {
    fn show(&self, row: &mut TextBuilder, p: &Parse<'_>) {
        add_span(row, p, " path ", Some(*self));
    }
}

/// The end of a transaction, a new table or index without its parts, and the path of an ALTER statement.
pub(crate) fn show_head(row: &mut TextBuilder, p: &Parse<'_>, body: &Body) {
    match body {
        Body::End { plain, chain } => {
            row.push_if(*plain, " plain");
            row.push_if(*chain, " chain");
        }
        Body::Table {
            temp,
            guarded,
            on_commit_drop,
            word,
            path,
            ..
        } => {
            add_token(row, p, " word ", Some(*word));
            row.push_if(*temp, " temp");
            row.push_if(*guarded, " guarded");
            row.push_if(*on_commit_drop, " dropped");
            add_span(row, p, " path ", Some(*path));
        }
        Body::Into { path, .. } => add_span(row, p, " path ", Some(*path)),
        Body::Alter { path, .. } => add_span(row, p, " path ", *path),
        _ => show_index(row, p, body),
    }
}

fn show_index(row: &mut TextBuilder, p: &Parse<'_>, body: &Body) {
    if let Body::Index {
        word,
        unique,
        concurrently,
        guarded,
        name,
        path,
    } = body
    {
        add_token(row, p, " word ", Some(*word));
        row.push_if(*unique, " unique");
        add_token(row, p, " concurrently ", *concurrently);
        row.push_if(*guarded, " guarded");
        add_token(row, p, " name ", *name);
        add_span(row, p, " path ", Some(*path));
    }
}

fn show_parts(row: &mut TextBuilder, p: &Parse<'_>, body: &Body) {
    match body {
        Body::Table { elems, .. } => {
            add_parts(row, p, ": ", "; ", elems.as_slice());
        }
        Body::Into { targets, .. } => {
            row.add(" targets");
            add_parts(row, p, "", "", targets.as_slice());
        }
        Body::Alter { actions, .. } => {
            row.add(": ");
            add_parts(row, p, "", "; ", actions.as_slice());
        }
        Body::Domain { constraints } => show_constraints(row, p, constraints.as_slice()),
        Body::View(view) => view.get().show(row, p),
        Body::Write(write) => write.get().show(row, p),
        _ => (),
    }
}

fn show_object(row: &mut TextBuilder, p: &Parse<'_>, body: &Body) {
    match body {
        Body::Drop {
            word,
            concurrently,
            guarded,
            paths,
        } => {
            add_token(row, p, " word ", Some(*word));
            row.push_if(*concurrently, " concurrently");
            row.push_if(*guarded, " guarded");
            add_parts(row, p, "", "", paths.as_slice());
        }
        Body::Reindex {
            target,
            word,
            concurrent,
            valued,
            path,
        } => {
            row.debug(" ", target);
            add_token(row, p, " word ", Some(*word));
            row.push_if(*concurrent, " concurrently");
            row.push_if(*valued, " valued");
            add_span(row, p, " path ", *path);
        }
        Body::Made { path, guarded } => {
            row.push_if(*guarded, " guarded");
            add_span(row, p, " path ", Some(*path));
        }
        _ => (),
    }
}

fn show_other(row: &mut TextBuilder, p: &Parse<'_>, body: &Body) {
    match body {
        Body::Code { replace } => row.push_if(*replace, " replace"),
        Body::Truncate { cascade } => add_token(row, p, " ", *cascade),
        Body::Setting { name } => add_span(row, p, " ", *name),
        Body::Locking { mode: Some(mode) } => {
            row.debug(" ", mode);
        }
        Body::Refresh { concurrently } => row.push_if(*concurrently, " concurrently"),
        Body::Vacuum { full, tables } => {
            row.push_if(*full, " full");
            add_span(row, p, " tables ", *tables);
        }
        Body::Cluster { table, index } => {
            add_span(row, p, " table ", *table);
            add_token(row, p, " index ", *index);
        }
        _ => (),
    }
}

/// A statement with all that is known of it.
impl Show for Stmt {
    fn show(&self, row: &mut TextBuilder, p: &Parse<'_>) {
        row.debug("", &self.kind);
        show_head(row, p, &self.body);
        show_parts(row, p, &self.body);
        show_object(row, p, &self.body);
        show_other(row, p, &self.body);
    }
}

/// The expressions of the checks of a table.
pub(crate) fn show_checks(row: &mut TextBuilder, p: &Parse<'_>, elems: &[Elem]) {
    for elem in elems {
        if let Elem::Constraint(constraint) = elem {
            add_part(row, p, "", &constraint.expr);
        }
    }
}

/// The actions of an ALTER statement. Used by tests only; no contract.
pub(crate) fn actions_of(body: &Body) -> &[Action] {
    match body {
        Body::Alter { actions, .. } => actions.as_slice(),
        _ => &[],
    }
}

/// The elements of a table. Used by tests only; no contract.
pub(crate) fn elements_of(body: &Body) -> &[Elem] {
    match body {
        Body::Table { elems, .. } => elems.as_slice(),
        _ => &[],
    }
}
