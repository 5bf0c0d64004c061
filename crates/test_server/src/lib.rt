//! Tests on the loop of the language server, for what a case cannot say: devices that fail in the midst of a talk, and a document of a
//! megabyte. The expected values were worked by hand from the protocol.
#![tactic(auto)]

#[cfg(test)]
mod failing;
#[cfg(test)]
mod large;
#[cfg(test)]
mod talk;
