//! Tests on `lavkheto check` over devices that fail, and on places. Whole runs are cases in `cases/check.txt`. The expected values were
//! worked by hand.
#![tactic(auto)]

#[cfg(test)]
mod failing;
#[cfg(test)]
mod places;
#[cfg(test)]
mod progress;
#[cfg(test)]
mod runs;
