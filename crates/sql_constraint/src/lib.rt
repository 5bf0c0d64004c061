//! Reads constraints of tables, of columns and of domains.
#![tactic(auto)]

mod column;
mod constraint;
mod list;
mod value;

pub use column::read_column_constraints;
pub use constraint::{is_exclusion, read_table_constraint};
pub use list::{make_room, put};

// What crates above reach through this one.
pub use sql_form::{
    Mark, Parts, WriteMark, after_any_name, after_list, after_two, after_word, begins_list,
    begins_with, closing, from_mark, has_keyword, has_mark, inside_alone, inside_list, is_list,
    names_from, nothing_kept, read_anything, read_front, read_whole, span_of, terminals_before,
    until,
};
