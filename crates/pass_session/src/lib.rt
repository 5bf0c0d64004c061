//! Passes on the session in which a migration runs: its transactions, its timeouts, and rewrites of whole tables.
//!
//! Each pass is in a file of its own, with what it reports in `specs/`.
#![tactic(auto)]

mod ban_concurrent_index_creation_in_transaction;
mod ban_uncommitted_transaction;
mod prefer_repack;
mod require_timeout_settings;
mod tokens;
mod transaction_nesting;

pub use ban_concurrent_index_creation_in_transaction::BanConcurrentIndexCreationInTransaction;
pub use ban_uncommitted_transaction::{BanUncommittedTransaction, BanUncommittedTransactionState};
pub use prefer_repack::PreferRepack;
pub use require_timeout_settings::{RequireTimeoutSettings, RequireTimeoutSettingsState};
pub use transaction_nesting::{TransactionNesting, TransactionNestingMemory};
