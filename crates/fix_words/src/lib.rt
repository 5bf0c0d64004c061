//! The arguments of `lavkheto fix`: what they ask for, or what is wrong with the first one that is refused.
//!
//! `specs/Steps.antt` says what one word adds, `Asked` what all ask for, and `Faults` the line about a word that is refused.
#![tactic(auto)]

mod asked;
mod fault;
mod help;
mod read;
mod request;
mod step;

pub use asked::{Asked, read_asked};
pub use fault::{Fault, fault_line};
pub use help::HELP;
pub use request::Request;

// What crates above reach through this one.
pub use refused_word::{
    CodeChoices, Order, Stop, push, push_concise, push_place, read_code_choices, read_input,
};
