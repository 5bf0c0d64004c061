//! Laws of the definitions of statements: terminals with other numbers, and with words in the place of quoted names, give
//! the same reading, with its numbers changed in the same way. What is proved of a statement so holds of it wherever it is in a text.
#![tactic(auto)]

pub mod laws;
pub mod maps;
pub mod texts;
pub mod whole;
