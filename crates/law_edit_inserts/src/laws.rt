//! What the edits of fixes do to a tree.

ghost use Rattle.law_edit_inserts.specs.Concurrently.{CreateIndexConcurrently, CreateUniqueIndexConcurrently, DropIndexConcurrently, ReindexConcurrently, ReindexOptionsConcurrently, DetachConcurrently};
ghost use Rattle.law_edit_inserts.specs.Shapes.{CreateIndexShows, DropIndexShows, ReindexShows, AlterTableShows};
ghost use Rattle.law_edit_inserts.specs.Actions.{ActionShows, DetachShows};
ghost use Rattle.law_edit_inserts.specs.Apart.{StatementsApart};
ghost use Rattle.law_edit_inserts.specs.Built.{ConcurrentlyReads, DetachReads, DetachBegins, DetachHasPath};
ghost use Rattle.law_edit_inserts.specs.SetInFront.{SetInFront};

/// A form that takes the word CONCURRENTLY keeps its form; only its `concurrently` field is set.
pub fn forms_take_concurrently()
    ensures create_index { CreateIndexConcurrently }
    ensures create_unique_index { CreateUniqueIndexConcurrently }
    ensures drop_index { DropIndexConcurrently }
    ensures reindex { ReindexConcurrently }
    ensures reindex_options { ReindexOptionsConcurrently }
    ensures detach { DetachConcurrently }
{}

/// The body of a statement shows what it begins with. One action of an ALTER TABLE may be exchanged for another.
pub fn bodies_show()
    ensures create_index { CreateIndexShows }
    ensures drop_index { DropIndexShows }
    ensures reindex { ReindexShows }
    ensures alter_table { AlterTableShows }
    ensures action { ActionShows }
    ensures detach { DetachShows }
{}

/// CREATE INDEX, DROP INDEX, REINDEX and DETACH PARTITION with the word CONCURRENTLY after their word or path: the text has a
/// tree in which the mark is set, and all else stays, under other numbers; and so do its terminals, statement by statement.
pub fn concurrently_reads_again()
    ensures statement { ConcurrentlyReads }
    ensures action { DetachReads }
    ensures begins { DetachBegins }
    ensures path { DetachHasPath }
{}

/// A SET before the first significant token is one statement more, and all others stay, under other numbers.
pub fn set_is_in_front()
    ensures { SetInFront }
{}

/// The numbers that a statement holds, at any depth, are those of its own tokens.
pub fn statements_are_apart()
    ensures { StatementsApart }
{}
