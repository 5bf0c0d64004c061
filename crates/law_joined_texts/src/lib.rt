//! Laws of two texts, one put after the other: the tree of both, from the trees of each.
#![tactic(auto)]

pub mod laws;
