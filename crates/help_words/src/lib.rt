//! Whether the arguments ask for help, or for the version.
//!
//! `specs/Help.antt` says which words these are.
#![tactic(auto)]

mod asks;

pub use asks::{asks_for_help, asks_for_version};
