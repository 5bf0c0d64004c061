#![tactic(auto)]
//! Cases as plain text: a title, words, a text, and what a program is to answer.
//!
//! ```text
//! # an index in a transaction                   a title: whatever serves the reader
//! $ --only require-concurrent-index-creation    the words, split at spaces; left out where there are none
//! BEGIN;
//! CREATE INDEX i ON t (id);
//! ---
//! violations: 0
//! status 0
//! ```
//!
//! - The text comes between the words and `---`, without the line feed before `---`. A last line that is empty gives the
//!   text a last line feed.
//! - Where `===` is written in place of `---`, each line of the text has its line feed, and the output is to be the text
//!   itself.
//! - The output is as printed, each line with its line feed, up to `status N`. What follows the number is the line on the
//!   error sink, as in `status 4 error: syntax at 7`, or its lines with a `⏎` between them.
//! - Between cases empty lines are skipped, and lines that begin with `//`.
//! - `$= WORD` is one word, whatever it has. Lines of words may be several, of both forms.
//! - A line of a text or an output that begins with `\ ` is read from there on with escapes: `\r`, `\n`, `\t`, `\\`, `\xHH`
//!   for a byte, and `\` at its end where no line feed follows. So a line that reads `---` is written `\ ---`, and so are
//!   lines that begin with `# ` or `status `.
//!
//! Where the first word is `rows`, each line of the text is a case of its own, with its answer on the same line. A last word
//! with `{}` is a frame: each row is put in place of the `{}`. A `⏎` in a row is a line feed of its text.
//!
//! ```text
//! # actions of ALTER TABLE
//! $ rows tree actions
//! $= ALTER TABLE t {};
//! DROP a ==> DropColumn 'DROP a' column a
//! ===
//! status 0
//! ```

mod builder;
mod case;
mod escape;
mod fault;
mod report;
mod rows;

pub use builder::TextBuilder;
pub use case::Case;
pub use fault::Fault;
pub use report::{Answer, Subject, run_table, shown};

// What crates above reach through this one.
pub use text_pos::{NoMemory, TextRange, TextSize};
