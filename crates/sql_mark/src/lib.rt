//! What is at depth 0 of a list of terminals, and lists cut there: marks, parts between them, pieces that begin at them,
//! bracket lists and paths that come first.
#![tactic(auto)]

mod action_marks;
mod column_marks;
mod depth;
mod groups;
mod parts;
mod pieces;
mod words;
mod write_marks;

pub use column_marks::kind_led;
pub use depth::{after_list, begins_list, begins_with, closing, has_keyword};
pub use groups::{inside_alone, inside_list, is_list, is_square, names_from, path_first};
pub use parts::{Mark, Parts, before_after_head, from_mark, has_mark, terminals_before, until};
pub use pieces::Pieces;
pub use sql_token::span_of;
pub use words::is_of_class;
pub use write_marks::WriteMark;
