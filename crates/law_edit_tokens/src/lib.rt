//! Laws of tokens: where a run of whole tokens of a text is exchanged for new ones, all other tokens stay.
#![tactic(auto)]

pub mod laws;
