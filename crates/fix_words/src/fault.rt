//! Why words are refused.
ghost use Rattle.std.specs.Prelude.{◌≡◌, IfOk};
ghost use Rattle.fix_words.specs.Faults as spec;

use refused_word::{NoMemory, WordFault, Words};
use std::alloc::Global;

/// Why words are refused.
#[derive(Drop)]
pub enum Fault {
    /// A word that there isn't, or an option of this command whose value is missing.
    Word(WordFault),
    /// The linter refuses these words.
    Linter(Words),
}

/// The line about a fault, with its line feed. The error comes when memory runs out.
#[tactic(auto, unfolding(crate::specs::Faults::fault_line))]
pub fn fault_line(alloc: Global, fault: &Fault) -> Result<Vec<u8>, NoMemory>
    ensures { IfOk result (λ line. line.items ≡ spec.fault_line fault.now) }
{
    match fault {
        Fault::Word(fault) => refused_word::fault_line(alloc, fault),
        Fault::Linter(words) => refused_word::words_line(alloc, words),
    }
}
