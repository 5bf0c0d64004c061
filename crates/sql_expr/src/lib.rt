//! Reads expressions, as far as the linter looks into them (PostgreSQL manual, section 4.2).
#![tactic(auto)]

mod expression;
pub mod laws;
mod level;
mod shape;

pub use expression::read_expression;
pub use shape::shape_of;
