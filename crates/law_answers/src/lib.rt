//! The law of the tables of passes: an entry of all passes is in the table of the pass of its rule, for the rules whose fixes
//! are known to mend a text.
#![tactic(auto)]

pub mod laws;

// What crates above reach through this one.
pub use pass_groups::{
    AFTER_CONSTRAINTS, BEFORE_BUILDS, BEFORE_CONSTRAINTS, BanDropDatabase, Group1, Group2, Group3,
    Group4, Group5, Group6, Group7, Group8, OwnPasses,
};
