//! Reads the front of every form, by the rows of its table.
#![tactic(auto)]

mod reader;
mod rows;
mod tables;

pub use reader::{after_any_name, after_two, after_word, after_words};
pub use rows::{nothing_kept, read_anything, read_front, read_whole};

// What crates above reach through this one.
pub use sql_mark::{
    Mark, Parts, Pieces, WriteMark, after_list, before_after_head, begins_list, begins_with,
    closing, from_mark, has_keyword, has_mark, inside_alone, inside_list, is_list, kind_led,
    names_from, path_first, span_of, terminals_before, until,
};
