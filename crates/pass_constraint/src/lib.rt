//! Passes on columns and constraints that an ALTER TABLE adds.
//!
//! Each pass, or family of passes, is in a file of its own, with what it reports in a file of `specs/`.
#![tactic(auto)]

mod added_constraints;
mod adding_field_with_default;
mod adding_required_field;
mod constraint_missing_not_valid;
mod constraint_rows;
mod volatility;

pub use added_constraints::{
    AddingForeignKeyConstraint, AddingPrimaryKeyConstraint, DisallowUniqueConstraint,
};
pub use adding_field_with_default::AddingFieldWithDefault;
pub use adding_required_field::AddingRequiredField;
pub use constraint_missing_not_valid::{ConstraintMissingNotValid, ConstraintMissingNotValidState};
pub use volatility::is_non_volatile_or_const;
