//! Passes on statements that can be run CONCURRENTLY, and are not: builds, drops and rebuilds of indexes, and detached partitions.
//!
//! Each pass is in a file of its own, with what it reports in the file of the same name in `specs/`.
#![tactic(auto)]

mod concurrently;
mod require_concurrent_index_creation;
mod require_concurrent_index_deletion;
mod require_concurrent_partition_detach;
mod require_concurrent_reindex;

pub use require_concurrent_index_creation::RequireConcurrentIndexCreation;
pub use require_concurrent_index_deletion::RequireConcurrentIndexDeletion;
pub use require_concurrent_partition_detach::RequireConcurrentPartitionDetach;
pub use require_concurrent_reindex::RequireConcurrentReindex;
