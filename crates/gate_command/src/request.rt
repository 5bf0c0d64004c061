//! What the words of `gate` ask for.

use gate_files::Order;
use refused_word::Words;

/// What the words of `gate` ask for.
#[derive(Drop)]
pub struct Request {
    /// The order in which the files run.
    pub order: Order,
    /// Whether the work of accepted files is listed.
    pub works: bool,
    /// Whether one session runs all files, so that none may end inside a transaction.
    pub one_session: bool,
    /// The files and folders, in order.
    pub files: Words,
    /// The words that choose the linter, as [`migration_gate::read_gate_choices`] reads them.
    pub linter: Words,
}
