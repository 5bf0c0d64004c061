//! What becomes of a tree where a run of tokens becomes one word, and of the types of columns there.

ghost use Rattle.law_edit_types.specs.Runs.{RunBecomesWord};
ghost use Rattle.law_edit_types.specs.Types.{ColumnTypeExchanges};
ghost use Rattle.law_edit_types.specs.Altered.{AddedTypeReads, SetTypeReads};
ghost use Rattle.law_edit_types.specs.Created.{CreatedTypeReads};
ghost use Rattle.law_edit_types.specs.Named.{NameReads};

/// Where a run of names and closed bracket lists of one statement becomes one word, the text has a tree, in which that statement
/// is the one that its new terminals give, and all else is the same under other numbers; and so its terminals are.
pub fn runs_become_words()
    ensures { RunBecomesWord }
{}

/// A column with other terminals for its type has the type that they are, and the same name and constraints.
pub fn columns_stay()
    ensures { ColumnTypeExchanges }
{}

/// Where the inner type of a column becomes one word, which an ALTER TABLE adds or sets, or a CREATE TABLE lists, the text has a tree, in which that type is
/// the word, and all else is the same under other numbers; and so its terminals are. Where ADD, without the word COLUMN, adds a
/// column named `constraint`, it may add a constraint of the table then, with the word for its name.
pub fn types_become_words()
    ensures added { AddedTypeReads }
    ensures set { SetTypeReads }
    ensures created { CreatedTypeReads }
{}

/// Where the last name of such a type becomes a word, and neither is a key word, the text has the same tree under other numbers.
pub fn names_become_words()
    ensures { NameReads }
{}
