//! Reads what follows the lead words of a statement, where no row can say it.
#![tactic(auto)]

mod locking;
mod options;
mod paths;
mod reindexing;
mod setting;
mod vacuum;

pub use locking::lock_mode;
pub use paths::read_paths;
pub use reindexing::reindex;
pub use setting::{last_cascade, parameter};
pub use vacuum::{is_full_vacuum, vacuum_tables};
