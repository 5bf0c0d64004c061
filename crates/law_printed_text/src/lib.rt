//! A law of what is printed for people: it leads back to each finding's file, place, level, rule and message.
#![tactic(auto)]

ghost use Rattle.law_printed_text.specs.Unique.{UniqueTexts};

/// Two lists of files of which the same is printed have the same findings, at the same places, with the same messages, in the same order.
pub fn unique_texts()
    ensures { UniqueTexts }
{}

// What crates above reach through this one.
pub use law_printed_lines::{
    have_no_control, steer_nothing, unique_commands, unique_concise, unique_escapes, unique_gcc,
};
