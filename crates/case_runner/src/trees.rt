//! The trees of texts, as cases. The first word of a case names a view of the tree, as `statements`, and a second word
//! `assumed` says that a transaction is assumed.

use crate::view::{View, viewed};
use case_format::{Answer, Fault, Subject};
use std::alloc::Global;

/// The printed trees.
pub struct Trees;

fn word_at(words: &[String], number: usize) -> &str {
    match words.get(number) {
        Some(word) => word.as_str(),
        None => "",
    }
}

impl Subject for Trees {
    fn answer(&self, alloc: Global, words: &[String], text: &[u8]) -> Result<Answer, Fault> {
        let mut answer = Answer::new(alloc);
        match std::str::from_utf8(text) {
            Ok(text) => {
                let mut row = self.row(alloc, words, text)?;
                row.push_str("\n")?;
                answer.out = row.into_bytes();
            }
            Err(_) => answer.status = 2,
        }
        Ok(answer)
    }

    fn row(&self, alloc: Global, words: &[String], text: &str) -> Result<String, Fault> {
        let name = word_at(words, 0);
        match View::named(name) {
            Some(view) => viewed(alloc, view, word_at(words, 1) == "assumed", text),
            None => Ok(format!(in alloc; "no view `{name}`")?),
        }
    }
}
