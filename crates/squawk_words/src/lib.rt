//! The command line of the strict programs: which arguments are accepted, and what they choose.
//!
//! `specs/` says what each call means: `Words` says which words are accepted and what they set, and
//! `Choices` which rules and settings they choose. `Command` says how `clap` is asked.
#![tactic(auto)]

mod choices;
mod given;
mod parts;
mod values;
mod words;

pub use choices::{Choices, choices_by, read_choices, read_given};
pub use given::Given;
pub use parts::{after_dashes, begins_with_dash, is_option, items_of, name_in, value_in};
pub use words::Words;

// What crates above reach through this one.
pub use lint_base::{Edit, Fix, LinterSettings, Names, NoMemory, Text, Violation};
