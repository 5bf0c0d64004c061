//! Passes that report what is dropped.
//!
//! A pass is a table of rows: where it reports, with which message and which note. `specs/` has the rows once more, in the
//! same order.
#![tactic(auto)]

mod ban_truncate_cascade;
mod objects;
mod others;
mod parts;

pub use ban_truncate_cascade::BanTruncateCascade;
pub use objects::{
    BanDropDatabase, BanDropDomain, BanDropFunction, BanDropSchema, BanDropSequence, BanDropTable,
    BanDropTrigger, BanDropType, BanDropView,
};
pub use others::{BanDropExtension, BanDropIndex, BanDropPolicy};
pub use parts::{
    BanDropColumn, BanDropConstraint, BanDropDefault, BanDropGeneratedExpression, BanDropNotNull,
};
