//! Laws of fixes: what the text reads as that a fix makes, and what is reported of it.
#![tactic(auto)]

pub mod laws;

// What crates above reach through this one.
pub use pass_concurrent::{
    RequireConcurrentIndexCreation, RequireConcurrentIndexDeletion,
    RequireConcurrentPartitionDetach, RequireConcurrentReindex,
};
pub use pass_session::{
    BanUncommittedTransaction, PreferRepack, RequireTimeoutSettings, TransactionNesting,
};
