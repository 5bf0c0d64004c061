//! Tests on the linter, called for a tree, on the printed form, on fixes made in a text, on the work under locks, and on runs of the
//! command over sources and sinks that fail. Whole runs are cases in `cases/`. The expected values come from examples that were
//! worked by hand, never from what the code answered.
#![tactic(auto)]

#[cfg(test)]
mod answers;
#[cfg(test)]
mod assessed;
#[cfg(test)]
mod at_start;
#[cfg(test)]
mod command;
#[cfg(test)]
mod failing;
#[cfg(test)]
mod fixes;
#[cfg(test)]
mod held;
#[cfg(test)]
mod mark;
#[cfg(test)]
mod passes;
#[cfg(test)]
mod printed;
#[cfg(test)]
mod runs;
#[cfg(test)]
mod sets;
#[cfg(test)]
mod shown;
#[cfg(test)]
mod streams;
