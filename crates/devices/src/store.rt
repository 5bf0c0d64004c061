//! What every store of files keeps.
ghost use Rattle.std.specs.Prelude.{ℕ, ◌<◌, ◌≤◌, ◌^◌, List, length, map, option_map, string_bytes, IfOk, IfErr};
ghost use Rattle.devices.specs.Contents.{Content, IsBytes, IsListed, IsThere, KeepsContents};
ghost use Rattle.devices.specs.Refused.{RefusedFits};

use std::alloc::Global;

/// Why a file or a folder could not be read.
#[derive(Clone, Copy, Debug, PartialEq, Eq)]
pub enum FileError {
    /// There is no file of this name.
    Missing,
    /// It could not be opened, or a read failed.
    Fault,
    /// 2^32 bytes or more were read.
    TooLong,
    /// Memory ran out.
    NoMemory,
}

/// A store of files. `content` is what a name holds, as far as that is known, and no call changes it. `faults` counts failures: it
/// never falls, and a call fails for a fault only where it rises or is at its last value, 2^64 - 1.
pub trait FileStore {
    ghost content: { Self → List ℕ → Content };

    ghost faults: { Self → ℕ };

    /// Whether there is a file or a folder of this name.
    fn is_there(&self, name: &str) -> bool
        ensures { IsThere (content self.now name.now) result };

    /// All bytes of a file.
    fn read(&mut self, alloc: Global, name: &str) -> Result<Vec<u8>, FileError>
        ensures bytes { IfOk result (λ bytes. IsBytes (content self.old name.now) bytes.items) }
        ensures short { IfOk result (λ bytes. length bytes.items < 2 ^ 32) }
        ensures refused { IfErr result (λ e. RefusedFits e (content self.old name.now) (faults self.old) (faults self.new)) }
        ensures kept { KeepsContents (content self.old) (content self.new) }
        ensures later { faults self.old ≤ faults self.new };

    /// The names of all files in a folder and in the folders in it, in any order, each with the folder in front, as `read` takes
    /// them. `None` comes for a name that is that of no folder.
    fn list(&mut self, alloc: Global, name: &str) -> Result<Option<Vec<String>>, FileError>
        ensures listed { IfOk result (λ names. IsListed (content self.old name.now) (option_map (λ all. map string_bytes all.items) names)) }
        ensures refused { IfErr result (λ e. RefusedFits e (content self.old name.now) (faults self.old) (faults self.new)) }
        ensures kept { KeepsContents (content self.old) (content self.new) }
        ensures later { faults self.old ≤ faults self.new };
}
