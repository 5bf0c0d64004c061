//! What the statements of a text do under locks that block others, and whether they do it to tables that others know.
//!
//! [`lock_work`] lists the work: each index that is built, dropped or rebuilt, each constraint that is checked, each column whose type
//! changes or that is added with a look at all rows, and each partition that is detached while its table is locked, with the lock and
//! with whether the table is old, that is, was not created in the same transaction. [`is_plain`] says whether a text does nothing that the list cannot follow.
//!
//! `specs/` says what each call means: `Machine` numbers the transactions of a text and knows in which one a table was created,
//! `Works` has the work of each statement, `Steady` the defaults that rewrite no table, `Plain` the plain texts, and `MachineWalk`
//! what a walk keeps of the machine. `Laws` says what the machine's states say of the earlier statements, and is proved by
//! [`numbers_count`] and [`births_are_new`].
#![tactic(auto)]

mod action_lock;
mod array;
mod index_lock;
mod laws;
mod machine;
mod plain;
mod search_path;
mod steady;
mod work;

pub use laws::{births_are_new, numbers_count};
pub use plain::is_plain;
pub use work::{Work, lock_work};

// What crates above reach through this one.
pub use lint_lock::{LockKind, analyze};
