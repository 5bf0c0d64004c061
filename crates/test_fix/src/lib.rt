//! Tests on repeated fixing: whole runs, runs over devices that fail, and what linting says of a fixed text. The expected values were
//! worked by hand from what the rules say, never from what the code answered.
#![tactic(auto)]

#[cfg(test)]
mod again;
#[cfg(test)]
mod failing;
#[cfg(test)]
mod rows;
#[cfg(test)]
mod runs;
