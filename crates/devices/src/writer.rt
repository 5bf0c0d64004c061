//! What every writer of files keeps.
ghost use Rattle.std.specs.Prelude.{ℕ, ◌≤◌, List, OnErr, OnOk, IfErr};
ghost use Rattle.devices.specs.Contents.{Content, KeepsContents};
ghost use Rattle.devices.specs.Writes.{IsRefusal, Writes};

use std::alloc::Global;

/// Why a file was not written.
#[derive(Clone, Copy, Debug, PartialEq, Eq)]
pub enum WriteError {
    /// A call that makes, fills or renames the new file failed.
    Fault,
    /// Memory ran out.
    NoMemory,
}

/// A writer of files. `content` is what a name holds, as far as that is known. `faults` counts failures: it never falls, and a call
/// fails for a fault only where it rises or is at its last value, 2^64 - 1.
pub trait FileWriter {
    ghost content: { Self → List ℕ → Content };

    ghost faults: { Self → ℕ };

    /// Puts bytes in place of what the file of this name holds.
    fn replace(&mut self, alloc: Global, name: &str, bytes: &[u8]) -> Result<(), WriteError>
        ensures written { OnOk result (Writes (content self.old) (content self.new) name.now bytes.now) }
        ensures kept { OnErr result (KeepsContents (content self.old) (content self.new)) }
        ensures refused { IfErr result (λ e. IsRefusal e (faults self.old) (faults self.new)) }
        ensures later { faults self.old ≤ faults self.new };
}
