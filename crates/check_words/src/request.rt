//! What the words of `check` ask for.

use code_choice::{Text, Words};

/// How findings are written.
#[derive(Clone, Copy, Debug, PartialEq, Eq)]
pub enum Format {
    /// With the lines that they are about.
    Text,
    /// On a line each, the rule before the message.
    Concise,
    /// On a line each, as gcc has it.
    Gcc,
    /// As workflow commands of GitHub.
    Github,
    /// As an array of JSON objects.
    Json,
    /// As a log of SARIF 2.1.0.
    Sarif,
    /// As a code quality report of GitLab.
    Gitlab,
}

/// Whether the text format is painted.
#[derive(Clone, Copy, Debug, PartialEq, Eq)]
pub enum Color {
    /// Where the output is a terminal.
    Auto,
    /// Always.
    Always,
    /// Never.
    Never,
}

/// Which reports make a run fail. Errors do always.
#[derive(Clone, Copy, Debug, PartialEq, Eq)]
pub enum FailOn {
    /// Each report: the status is 1 where there is one.
    Warning,
    /// None: the status is 0 where there are only reports.
    Never,
}

/// What the words of `check` ask for.
#[derive(Drop)]
pub struct Request {
    /// How findings are written.
    pub format: Format,
    /// Whether they are painted.
    pub color: Color,
    /// What standard input is called.
    pub stdin_name: Text,
    /// The configuration file, where one is named.
    pub config: Option<Text>,
    /// The baseline, where one is named.
    pub baseline: Option<Text>,
    /// Which reports make the run fail.
    pub fail_on: FailOn,
    /// Whether less is written.
    pub quiet: bool,
    /// Whether the rules are counted.
    pub statistics: bool,
    /// Whether a baseline is written in place of the findings.
    pub write_baseline: bool,
    /// Whether a line for psql, and the data of COPY, are read as SQL too.
    pub strict: bool,
    /// The files and folders, in order.
    pub files: Words,
    /// The words that choose the linter, as `code_choice` reads them, each value after `=`.
    pub linter: Words,
}
