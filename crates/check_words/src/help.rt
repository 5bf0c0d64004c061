//! What is printed for `--help` and `--version`.

/// What is printed for `--version`.
pub const VERSION: &str = "lavkheto 0.1.0\n";

/// What is printed for `--help`.
pub const HELP: &str =
    "Lints migrations of PostgreSQL. What is reported is proved to be what the rules define.

Usage: lavkheto check [OPTIONS] [FILES]..
       lavkheto fix [OPTIONS] [FILES]..  what the safe fixes change, as a diff; with --write the files are written
       lavkheto gate [OPTIONS] FILES..   whether the migrations may be run
       lavkheto explain [RULE]           what a rule or a hazard reports, why, its lock, and what to write instead
       lavkheto server [OPTIONS]         a language server over standard input and output

FILES are files, and folders for all *.sql files in them. Without FILES, or with - alone, standard input is checked.

  --format FORMAT          text (default), concise, gcc, github, json, sarif, gitlab
  --color WHEN             auto (default), always, never
  --quiet                  the findings, and no line that counts them
  --statistics             counts the reports of each rule, after them
  --stdin-filename NAME    what standard input is called in what is written (default: stdin)
  --config FILE            the configuration, instead of .squawk.toml in this folder or one above it, up to the repository's
  --fail-on WHEN           warning (default): status 1 where something is found; never: status 0 there
  --baseline FILE          what is found and is in this baseline counts as not found
  --write-baseline         the baseline that has all that is found is written, in place of the findings
  --strict                 a line for psql, and the data of COPY, are faults
  --                       the words after it are files

  --only RULES             exactly these rules and hazards, with commas between them
  --include RULES          these rules and hazards too
  --exclude RULES          without these rules and hazards
  --no-hazards             Squawk's rules alone
  --non-volatile NAMES     functions that count as not volatile
  --assume-in-transaction  the migration runs in a transaction that was begun before it
  --pg-major N             the version of PostgreSQL (default: 15)
  --pg-minor N             its second part (default: 0)
  --pg-patch N             its third part (default: 0)

  -h, --help               this help
  -V, --version            the version

Status: 0 nothing is found; 1 something is found; 2 a word, the configuration or the baseline is refused; 3 a file is not UTF-8; 4 a file
can't be parsed; 5 a file can't be read; 6 a write failed; 7 out of memory. The greatest of those that apply.

Examples:
  lavkheto check migrations
  lavkheto check --format github --exclude prefer-text-field migrations/2.sql
  lavkheto check --format sarif --fail-on never migrations > lavkheto.sarif
  lavkheto check --write-baseline migrations > lavkheto.baseline
  lavkheto check --baseline lavkheto.baseline migrations
  git show HEAD:migrations/2.sql | lavkheto check --stdin-filename migrations/2.sql
";
