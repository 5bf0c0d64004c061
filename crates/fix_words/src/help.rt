//! What is printed for `--help`.

/// What is printed for `--help`.
pub const HELP: &str =
    "Makes the fixes that the rules have for migrations, and prints what it would change as a unified diff.

Usage: lavkheto fix [OPTIONS] [FILES]..

FILES are files, and folders for all *.sql files in them, in order of their names. Without FILES, or with - alone, standard input is fixed.
A fix is safe, unsafe or a template (docs/RULES.md has the class of each). No rule whose fixes are made here has a safe one, so without
--unsafe nothing is changed. A template has a part that is to be filled in and is never made; lavkheto check shows it. Lines for psql,
which are its commands and the rows of COPY, stay as they are; where a fix would change one, the file is refused as one that can't be parsed.
Fix only new migrations: one that was applied must not be changed, since Flyway, Liquibase, Prisma and sqlx compare checksums.

  --write                  write the files in place of printing a diff; what is made of standard input goes to standard output
  --unsafe                 make the unsafe fixes too, which may fail or change what the text means: look at each of them
  --config FILE            the configuration, instead of .squawk.toml in this folder or one above it, up to the repository's
  --                       the words after it are files

  --only RULES             exactly these rules, with commas between them
  --include RULES          these rules too
  --exclude RULES          without these rules
  --non-volatile NAMES     functions that count as not volatile
  --assume-in-transaction  each file runs in a transaction that was begun before it
  --pg-major N             the version of PostgreSQL (default: 15)
  --pg-minor N             its second part (default: 0)
  --pg-patch N             its third part (default: 0)

  -h, --help               this help

Status: 0 nothing is to be fixed, or all is written; 1 a diff was printed; 2 a word or the configuration is refused; 3 a file is not UTF-8;
4 a file can't be parsed; 5 a file can't be read; 6 a write failed; 7 out of memory. The greatest of those that apply.

Examples:
  lavkheto fix --unsafe migrations | less
  lavkheto fix --unsafe --write migrations/2.sql
  lavkheto fix --unsafe --only prefer-text-field migrations
  lavkheto fix --unsafe --write < old.sql > new.sql
";
