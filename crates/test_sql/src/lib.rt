//! Tests on the calls that read a text: key words, names, tokens, terminals, statements, forms and trees. The expected
//! values come from the PostgreSQL manual and from examples that were worked by hand, never from what the code answered.
#![tactic(auto)]

#[cfg(test)]
mod fronts;
#[cfg(test)]
mod keywords;
#[cfg(test)]
mod large;
#[cfg(test)]
mod names;
#[cfg(test)]
mod parts;
#[cfg(test)]
mod paths;
#[cfg(test)]
mod rows;
#[cfg(test)]
mod statements;
#[cfg(test)]
mod terminals;
#[cfg(test)]
mod tokens;
#[cfg(test)]
mod trees;
