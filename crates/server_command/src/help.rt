//! What is printed for `server --help`.

/// What is printed for `server --help`.
pub const HELP: &str =
    "A language server for migrations of PostgreSQL, over standard input and output. Editors start it.

Usage: lavkheto server [OPTIONS]

It shows what lavkheto check finds in each open document, with what is to be known of it and how to mend it. A .squawk.toml in the root of
the workspace that the editor names, or else in this folder, or in one above it, up to the repository's, counts as it does for lavkheto check.
Where it is refused, the editor shows why, and no reports.

  --only RULES             exactly these rules and hazards, with commas between them
  --include RULES          these rules and hazards too
  --exclude RULES          without these rules and hazards
  --no-hazards             Squawk's rules alone
  --non-volatile NAMES     functions that count as not volatile
  --assume-in-transaction  the migration runs in a transaction that was begun before it
  --pg-major N             the version of PostgreSQL (default: 15)
  --pg-minor N             its second part (default: 0)
  --pg-patch N             its third part (default: 0)

  --stdio                  taken, and changes nothing: some editors add it
  -h, --help               this help

Status: 0 the client asked to shut down, and then to exit; 1 it ended without asking; 2 the words are not accepted;
3 the input has no header; 4 a message is too long or cut off; 5 a read failed; 6 a write failed; 7 out of memory.

Examples:
  lavkheto server
  lavkheto server --assume-in-transaction --pg-major 17
  lavkheto server --exclude prefer-text-field --stdio
";
