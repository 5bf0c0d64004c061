//! Reads columns, the elements of a table's list, and domains.
#![tactic(auto)]

mod column;
mod element;
mod spans;

pub use column::{read_column, read_domain_constraints};
pub use element::{drops_on_commit, elements_inside, read_elements};
pub use spans::{read_domain, read_elems};

// What crates above reach through this one.
pub use sql_constraint::{
    Mark, Parts, after_any_name, after_two, after_word, begins_with, closing, from_mark,
    has_keyword, inside_alone, make_room, nothing_kept, put, read_anything, read_front,
    read_table_constraint, read_whole, span_of, terminals_before,
};
pub use sql_lex::{LexError, Statements, cut, is_sound, lex, terminals_in};
pub use sql_type::{column_type, type_len};
