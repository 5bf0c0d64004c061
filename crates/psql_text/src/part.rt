//! Parts of a text that are not read as SQL.

/// What psql makes of a part that is not read as SQL.
#[derive(Clone, Copy)]
pub enum PartKind {
    /// A line that is one command of psql itself, which neither sends SQL, nor drops it, nor takes it from elsewhere.
    Command,
    /// The lines after a COPY .. FROM STDIN, with the line `\.` that ends them.
    Data,
    /// A command that ends the statement before it, up to the end of the line: it sends it or drops it, or is the edge of a branch.
    Ending,
    /// The body of a function or a procedure, BEGIN ATOMIC .. END, but for its BEGIN.
    Body,
}

/// A part of a text that is no SQL, or a body that is not read as such: it goes from the byte `from` to before the byte `to`.
#[derive(Clone, Copy)]
pub struct Part {
    pub kind: PartKind,
    pub from: usize,
    pub to: usize,
}
