//! Which fixes are made, and which one is the next.
//!
//! [`next_text`] makes the first fix of some reports that is of a listed rule and fits, and [`made_by`] a given one. `specs/Fits.antt` says when a fix fits: it joins no
//! words, and the text that it makes is short enough to be read again. Which rules are listed, `is_listed` of `law_fix_steps` says: those
//! whose fixes put CONCURRENTLY into a text, set a timeout or write another column type.
#![tactic(auto)]

mod fits;
mod listed;
mod next;

pub use listed::{is_followed, is_listed};
pub use next::{made_by, next_text};

// What crates above reach through this one.
pub use fix_edit::{Found, Parse, find_ignores};
pub use law_fix_steps::laws::load_is_small;
