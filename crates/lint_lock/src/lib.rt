//! What a statement does to the traffic on its table: the lock that it takes, and whether it may take long.
#![tactic(auto)]

pub mod analyze;
mod lock;

pub use lock::LockKind;
