//! A file as a report shows it: its name, the place of each byte as a line and a column, the lines of a range, the columns that a
//! piece takes in a terminal, why a file could not be linted, and what may help.
#![tactic(auto)]

mod columns;
mod escaped;
mod file;
mod hints;
mod level;
mod line;
mod place;
mod refusal;
mod shown;

pub use columns::width;
pub use escaped::{push_escaped, push_escaped_name};
pub use file::SourceFile;
pub use hints::{Hint, begins_with, hint_for};
pub use level::Level;
pub use line::{block, front, line_end, line_start, lines};
pub use place::Place;
pub use refusal::Refusal;
pub use shown::push_shown;

// What crates above reach through this one.
pub use text_pos::{NoMemory, TextSize};
