//! Tests on what is found of hazards. Each row is a text and its findings, marked in it by hand from what each hazard is.
#![tactic(auto)]

#[cfg(test)]
mod columns;
#[cfg(test)]
mod ignores;
#[cfg(test)]
mod indexes;
#[cfg(test)]
mod migrations;
#[cfg(test)]
mod rewrites;
#[cfg(test)]
mod settings;
#[cfg(test)]
mod shown;
#[cfg(test)]
mod timeouts;
#[cfg(test)]
mod transactions;
#[cfg(test)]
mod views;
