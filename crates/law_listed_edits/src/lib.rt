//! Law of the fixes that are known to mend a text: each has one edit, and a range that it replaces is never at the start of a text.
#![tactic(auto)]

pub mod laws;
