//! The port's names of passes on what breaks clients. They are kept in crates by what they look at; this crate only passes them on, and nothing is built on it.
#![tactic(auto)]

pub use pass_client::{
    BanAlterDomainWithAddConstraint, BanAlterGeneratedExpression, BanAlterIdentity,
    BanCreateDomainWithConstraint, BanDisableTrigger, BanReplaceViewFunction, BanReplicaIdentity,
    BanRevoke, BanSetDefault, BanSetSchema, RenamingColumn, RenamingObject, RenamingTable,
    RequireTableSchema, SecurityCompatibility,
};
pub use pass_drop::{BanDropExtension, BanDropIndex, BanDropPolicy};
pub use pass_object::ExistingObjectCompatibility;
