//! Reads the actions of ALTER statements.
#![tactic(auto)]

mod actions;
pub mod laws;
mod pieces;
mod spans;
mod starts;
mod tables;

pub use actions::read_actions_of;
pub use spans::read_actions;

// What crates above reach through this one.
pub use sql_column::{
    LexError, Mark, Statements, cut, drops_on_commit, elements_inside, from_mark, has_keyword,
    inside_alone, is_sound, lex, nothing_kept, read_anything, read_domain, read_domain_constraints,
    read_elements, read_elems, read_front, span_of,
};
