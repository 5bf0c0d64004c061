//! Laws of texts of which a run of terminals was exchanged: what a run is that may be exchanged, and what stays then.
#![tactic(auto)]

pub mod laws;

// What crates above reach through this one.
pub use law_renumber::laws::starts_ascend;
