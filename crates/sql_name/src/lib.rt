//! Names of SQL: the texts that words and quoted identifiers stand for, compared without building them.
#![tactic(auto)]

mod full_bytes;
mod full_name;
mod name;

pub use full_name::FullName;
pub use name::Name;

// What crates above reach through this one.
pub use text_pos::{LineEnding, LineIndex, NoMemory, TextRange, TextSize, line_ending};
