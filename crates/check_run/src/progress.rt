//! What shows how far a run is.

/// What shows how far a run is. Nothing is promised of it, and nothing that a run answers or writes depends on it.
pub trait Progress {
    /// So many of all files are checked.
    fn show(&mut self, done: usize, all: usize);

    /// All files are checked, or memory ran out.
    fn end(&mut self);
}
