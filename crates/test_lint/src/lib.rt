//! Tests on the public calls of `text_pos`, `lint_base`, `lint_ignore`, `lint_lock` and `lint_transaction`. The expected values
//! come from the list of rules and from examples that were worked by hand, never from what the code answered.
#![tactic(auto)]

#[cfg(test)]
mod ignores;
#[cfg(test)]
mod locks;
#[cfg(test)]
mod reports;
#[cfg(test)]
mod rules;
#[cfg(test)]
mod tables;
