//! Values of JSON that several printed forms of findings have in common.
//!
//! `specs/Values.antt` says which value each is; `serde_json` says what text a value has.
#![tactic(auto)]

mod text;
mod values;

pub use text::push_value;
pub use values::{hint_value, text_value};

// What crates above reach through this one.
pub use source_file::{Level, Place, Refusal, SourceFile, hint_for};
