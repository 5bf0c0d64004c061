//! A map of terminals that keeps what reading sees gives the same reading, with its numbers changed alike.

ghost use Rattle.sql_tree.specs.declared.kinds.ActionKind.{ActionKind};
ghost use Rattle.sql_tree.specs.declared.kinds.PieceKind.{PieceKind};
ghost use Rattle.sql_tree.specs.Split as marks;
ghost use Rattle.sql_tree.specs.ColumnMarks as column_marks;
ghost use Rattle.sql_tree.specs.ColumnType as types;
ghost use Rattle.sql_tree.specs.Write as writes;
ghost use Rattle.sql_tree.specs.ActionPieces as piece_marks;
ghost use Rattle.law_renumber.specs.Order.{StatementsAscend, ActionsAscend, ElementsAscend, TypesAscend};
ghost use Rattle.law_renumber.specs.Renumber.{ForKept, IsBlind, WordIsBlind, BeforeRenumbers, SplitRenumbers, ClosingRenumbers, PartRenumbers, PartsRenumber, FrontRenumbers, WholeRenumbers};
ghost use Rattle.law_renumber.specs.Trees.{ExpressionRenumbers, TypeLenRenumbers, TypeRenumbers, ConstraintRenumbers, ColumnRenumbers, ElementsRenumber, DropRenumbers, DomainRenumbers, ActionRenumbers, PiecesRenumber, ActionsRenumber, TargetsRenumber, ViewRenumbers, WriteRenumbers, SoundRenumbers, FormRenumbers, StatementRenumbers};

/// The marks are blind to such maps. Such a mark is at the same place, a list is split at the same places, and a bracket
/// list is as long.
pub fn marks_renumber()
    ensures comma { IsBlind marks.comma }
    ensures not_valid { IsBlind marks.not_valid }
    ensures into { IsBlind marks.into }
    ensures verb { IsBlind marks.verb }
    ensures privileges { IsBlind marks.privileges }
    ensures word { WordIsBlind }
    ensures operator { IsBlind marks.operator }
    ensures cast { IsBlind marks.cast }
    ensures on_commit_drop { IsBlind marks.on_commit_drop }
    ensures before { ForKept BeforeRenumbers }
    ensures split { ForKept SplitRenumbers }
    ensures closing { ForKept ClosingRenumbers }
{}

/// So are the marks by which columns, options and clauses are cut.
pub fn piece_marks_renumber()
    ensures type_end { IsBlind column_marks.type_end }
    ensures value_end { IsBlind column_marks.value_end }
    ensures constraint_start { IsBlind column_marks.constraint_start }
    ensures no_group { IsBlind types.no_group }
    ensures only_groups { IsBlind types.only_groups }
    ensures no_accessor { IsBlind writes.no_accessor }
    ensures sequence_option { IsBlind piece_marks.sequence_option }
    ensures identity_option { IsBlind piece_marks.identity_option }
    ensures policy_part { IsBlind piece_marks.policy_part }
    ensures equals { IsBlind marks.equals }
    ensures do_update_set { IsBlind marks.do_update_set }
    ensures then_update_set { IsBlind marks.then_update_set }
    ensures then_insert { IsBlind marks.then_insert }
    ensures clause_end { IsBlind marks.clause_end }
    ensures merge_clause_end { IsBlind marks.merge_clause_end }
    ensures target_list_end { IsBlind marks.target_list_end }
{}

/// An expression stays the same.
pub fn expression_renumbers()
    ensures { ForKept ExpressionRenumbers }
{}

/// A column's type is as long, and stays the same.
pub fn type_renumbers()
    ensures length { ForKept TypeLenRenumbers }
    ensures tree { ForKept TypeRenumbers }
{}

/// A table constraint stays one.
pub fn constraint_renumbers()
    ensures { ForKept ConstraintRenumbers }
{}

/// A column stays the same, and so do the elements of a table, what is done with it at the end of a transaction, and the
/// constraints of a domain.
pub fn columns_renumber()
    ensures column { ForKept ColumnRenumbers }
    ensures elements { ForKept ElementsRenumber }
    ensures drop { ForKept DropRenumbers }
    ensures domain { ForKept DomainRenumbers }
{}

/// An action of an ALTER statement stays the same, and so do its pieces, and a list of actions.
pub fn actions_renumber()
    ensures one { ForKept ActionRenumbers }
    ensures pieces { ForKept PiecesRenumber }
    ensures all { ForKept ActionsRenumber }
{}

/// What a query gives, what a view is and what a statement writes stay the same.
pub fn queries_renumber()
    ensures targets { ForKept TargetsRenumber }
    ensures view { ForKept ViewRenumbers }
    ensures write { ForKept WriteRenumbers }
{}

/// A part takes the same terminals, and parts one after another do. Of any table of rows the same row reads a statement,
/// an action or a piece of one.
pub fn fronts_renumber()
    ensures part { ForKept PartRenumbers }
    ensures parts { ForKept PartsRenumber }
    ensures rows { ForKept FrontRenumbers }
    ensures action_rows { ForKept (WholeRenumbers ActionKind) }
    ensures piece_rows { ForKept (WholeRenumbers PieceKind) }
{}

/// A statement stays sound or not, has the same form, and is the same statement.
pub fn statements_renumber()
    ensures sound { ForKept SoundRenumbers }
    ensures form { ForKept FormRenumbers }
    ensures statement { ForKept StatementRenumbers }
{}

/// The statements of a tree, its actions, the elements of its tables and its column types begin at tokens that ascend: no
/// two of a list begin at one place.
pub fn starts_ascend()
    ensures statements { StatementsAscend }
    ensures actions { ActionsAscend }
    ensures elements { ElementsAscend }
    ensures types { TypesAscend }
{}
