//! The port's names of passes on locks. They are kept in crates by what they look at; this crate only passes them on, and nothing is built on it.
#![tactic(auto)]

pub use pass_concurrent::{
    RequireConcurrentIndexCreation, RequireConcurrentIndexDeletion,
    RequireConcurrentPartitionDetach, RequireConcurrentReindex,
};
pub use pass_constraint::{
    AddingFieldWithDefault, AddingForeignKeyConstraint, AddingPrimaryKeyConstraint,
    AddingRequiredField, ConstraintMissingNotValid, ConstraintMissingNotValidState,
    DisallowUniqueConstraint, is_non_volatile_or_const,
};
pub use pass_drop::BanTruncateCascade;
pub use pass_history::{AddingNotNullField, PreferRobustStmts};
pub use pass_session::{
    BanConcurrentIndexCreationInTransaction, BanUncommittedTransaction, PreferRepack,
    RequireTimeoutSettings, TransactionNesting,
};
