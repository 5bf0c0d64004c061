//! What is printed for `--help`.

/// What is printed for `--help`.
pub const HELP: &str =
    "Says whether migrations run clean, one file after another: the gate before they are merged.

Usage: lavkheto gate [OPTIONS] FILES..

FILES are files, and folders for all *.sql files in them, in order of their names. A file is accepted where it can be read and parsed, has no
ignore comment, is plain, and nothing is reported of it by the rules of the default set. The first file that is not is shown, with why.

  --order given            the files run in the order in which they are given (default)
  --order name             they run in order of their names
  --works                  the work of each file under locks, where all are accepted
  --one-session            one session runs all files: none may end inside a transaction
  --                       the words after it are files

  --include RULES          these rules too
  --non-volatile NAMES     functions that count as not volatile
  --assume-in-transaction  each file runs in a transaction that was begun before it
  --pg-major N             the version of PostgreSQL (default: 15)
  --pg-minor N             its second part (default: 0)
  --pg-patch N             its third part (default: 0)

  -h, --help               this help

Status: 0 all files are accepted; 1 a file is not; 2 the words are not accepted; 3 a file is not UTF-8; 4 a file is too long;
5 a file can't be read; 6 a write failed; 7 out of memory.

Examples:
  lavkheto gate migrations
  lavkheto gate --order name --works migrations/1.sql migrations/2.sql
  lavkheto gate --one-session migrations
";
