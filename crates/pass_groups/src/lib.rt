//! The passes of the linter in their order: eight groups, and all of them.
//!
//! `specs/OwnTable.antt` says what they report. A group runs its members, and [`OwnPasses`] the groups, by the law of
//! passes alone.
//!
//! A group is a unit struct, so that its name is also its value. Its `impl StepPass` hands each call on to its members, and is
//! written out eight times: the gate refuses an `impl` that a macro of the repository writes, and one `impl` for all types of some
//! trait would overlap that for the passes of one rule.
#![tactic(auto)]

mod group1;
mod group2;
mod group3;
mod group4;
mod group5;
mod group6;
mod group7;
mod group8;
mod own;

pub use group1::Group1;
pub use group2::{
    AFTER_CONSTRAINTS, AfterConstraints, BEFORE_CONSTRAINTS, BeforeConstraints, Group2,
};
pub use group3::{BEFORE_BUILDS, BeforeBuilds, Group3};
pub use group4::Group4;
pub use group5::Group5;
pub use group6::Group6;
pub use group7::Group7;
pub use group8::Group8;
pub use own::OwnPasses;

// What crates above reach through this one.
pub use pass_client::{
    BanAlterDomainWithAddConstraint, BanCreateDomainWithConstraint, RenamingColumn, RenamingTable,
    RequireTableSchema,
};
pub use pass_constraint::{ConstraintMissingNotValid, DisallowUniqueConstraint};
pub use pass_drop::{
    BanDropDatabase, BanDropFunction, BanDropType, BanDropView, BanTruncateCascade,
};
pub use pass_history::PreferRobustStmts;
pub use pass_name::{BanDuplicateColumnAssignments, IdentifierTooLong};
