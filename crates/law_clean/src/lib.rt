//! What a clean answer means: where the rules of the default set report nothing of a plain text, no work that it does under locks
//! is on a table that others know, and it validates no constraint in the open transaction that added it as not valid.
//!
//! `specs/` says what the laws speak of: `Clean` texts of which nothing is reported and work on young tables, `Validations` the
//! validations of constraints and the transactions that they are in, `Laws` the laws.
#![tactic(auto)]

mod laws;

pub use laws::{
    clean_answers_have_no_old_work, clean_answers_validate_apart, default_rules_suffice,
};

// What crates above reach through this one.
pub use lock_machine::{Work, is_plain, lock_work, numbers_count};
