//! Names of lists of columns.

/// What a list of names is.
#[derive(Clone, Copy)]
pub(crate) enum ListKind {
    /// The columns of a table, a view or a query.
    Columns,
    /// The columns that a statement writes.
    Written,
}

/// A part of a SET clause that sets one column alone, and the first token of the part after it.
#[derive(Clone, Copy)]
pub(crate) struct Removable {
    pub(crate) first: u32,
    pub(crate) last: u32,
    pub(crate) next: u32,
}

/// A name in a list of columns: `partial` where only a field or an element of the column is written.
#[derive(Clone, Copy)]
pub(crate) struct Member {
    /// The number of the name's token.
    pub(crate) name: u32,
    pub(crate) partial: bool,
    /// The part of a SET clause that sets this column alone, where another part follows.
    pub(crate) part: Option<Removable>,
}
