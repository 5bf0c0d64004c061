//! What is printed for `--help`.

/// What is printed for `--help`.
pub const HELP: &str =
    "Explains a rule or a hazard: what it reports, why that hurts, which lock PostgreSQL takes, and what to write instead.

Usage: lavkheto explain [RULE]

Without RULE, all rules are listed, and then the hazards: whether each is on by default, its fix and its lock. Pages are 79 columns wide, but for SQL and addresses.

  -h, --help  this help

Status: 0 the page or the list was written; 2 no rule and no hazard has this name, or the words are not accepted; 6 a write failed; 7 out of memory.

Examples:
  lavkheto explain
  lavkheto explain ban-drop-table
  lavkheto explain table-rewrite
";
