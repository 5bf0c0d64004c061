//! What no tree lacks.

ghost use Rattle.law_renumber.specs.Whole.{AlterTablesHavePaths, AddedIsKnown};

/// An ALTER TABLE has a path, an action that adds a column has a column, and one that adds a constraint has a constraint.
pub fn nothing_is_missing()
    ensures path { AlterTablesHavePaths }
    ensures added { AddedIsKnown }
{}
