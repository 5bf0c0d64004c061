//! What ignore comments say of hazards.
//!
//! The linter knows no hazard: it reports each name of one in an ignore comment as unknown. `specs/` says what each call means: `HazardNames`
//! which of its reports are of such names, `Covered` which findings the comments cover, and which names cover nothing.
#![tactic(auto)]

mod covered;
mod hazard_names;
pub mod laws;

pub use covered::{HazardIgnores, Named};
pub use hazard_names::{hazard_of, without_hazard_names};
