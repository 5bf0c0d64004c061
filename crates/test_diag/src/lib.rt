//! Tests on positions as editors count them, and on diagnostics as JSON. Whole runs are cases in `cases/diagnostics.txt`. The expected
//! values were worked by hand; those of JSON come from RFC 8259.
#![tactic(auto)]

#[cfg(test)]
mod json;
#[cfg(test)]
mod positions;
#[cfg(test)]
mod refused;
