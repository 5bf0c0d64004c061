//! Tests on the migration gate: bundles that are cut at each byte, and runs over devices that fail. Whole runs are cases in
//! `cases/gate.txt`. The expected values were worked by hand.
#![tactic(auto)]

#[cfg(test)]
mod cut;
#[cfg(test)]
mod ending;
#[cfg(test)]
mod failing;
#[cfg(test)]
mod runs;
