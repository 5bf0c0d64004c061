//! Places and ranges of a text, in bytes, and the lines that they are on.
#![tactic(auto)]

mod ending;
mod line;
mod memory;
mod range;
mod size;

pub use ending::{LineEnding, line_ending};
pub use line::LineIndex;
pub use memory::NoMemory;
pub use range::TextRange;
pub use size::TextSize;
