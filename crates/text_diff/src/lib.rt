//! The difference of two texts, in the unified format of GNU diffutils ("Detailed Description of Unified Format").
//!
//! `specs/Lines.antt` has the lines of a text, `Script` what becomes of each line, `Context` which lines are shown, `Unified` the
//! printed form, and `Patch` what a patch makes of the old text.
#![tactic(auto)]

mod context;
mod diff;
pub mod laws;
mod line;
mod print;
mod script;
mod step;

pub use diff::push_diff;
pub use line::lines as lines_of;
pub use script::script as steps_of;
pub use step::{Mark, Step};
