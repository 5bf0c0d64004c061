//! Passes on what clients of the running version rely on: names, schemas, domains, values that columns get, privileges and settings.
//!
//! Most are tables of rows: where they report, with which message and which note; in `SecurityCompatibility` each row has its
//! rule. `specs/` has the rows once more, in the same order.
#![tactic(auto)]

mod columns;
mod domain_constraints;
mod renames;
mod require_table_schema;
mod security_compatibility;
mod services;

pub use columns::{BanAlterGeneratedExpression, BanAlterIdentity, BanSetDefault};
pub use domain_constraints::{BanAlterDomainWithAddConstraint, BanCreateDomainWithConstraint};
pub use renames::{BanSetSchema, RenamingColumn, RenamingObject, RenamingTable};
pub use require_table_schema::RequireTableSchema;
pub use security_compatibility::SecurityCompatibility;
pub use services::{BanDisableTrigger, BanReplaceViewFunction, BanReplicaIdentity, BanRevoke};
