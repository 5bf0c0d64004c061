//! What the words of `fix` ask for.

use refused_word::{Text, Words};

/// What the words of `fix` ask for.
#[derive(Drop)]
pub struct Request {
    /// Whether files are written; else the differences are printed.
    pub write: bool,
    /// Whether fixes are made that somebody has to look at.
    pub with_unsafe: bool,
    /// The configuration file, where one is named.
    pub config: Option<Text>,
    /// The files and folders, in order; none: standard input.
    pub files: Words,
    /// The words that choose the linter.
    pub linter: Words,
}
