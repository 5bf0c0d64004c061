//! Patterns of paths, as `migrations/old_*.sql`: whether a path matches one.
//!
//! `specs/Patterns.antt` says when it does. The time is the length of the pattern times that of the path at most, whatever stars there
//! are, and the memory that of the path.
#![tactic(auto)]

mod matching;
mod part;

pub use matching::is_match;
pub use part::Part;
