//! What lints a text.
ghost use Rattle.std.specs.Prelude.{ℕ, ◌<◌, ◌^◌, IfOk, List, length};
ghost use Rattle.checked_file.specs.declared.checked.Linted.{Linted};
ghost use Rattle.checked_file.specs.Sound.{IsSoundAnswer};

use checked_file::{Linted, NoMemory};
use std::alloc::Global;

/// What lints the bytes of a file. `answers` says what comes of which bytes, and no call changes that.
pub trait Lint {
    ghost answers: { Self → List ℕ → Linted → Type 0 };

    /// Lints the bytes of a file. The findings are in the front of the bytes as they were read that is UTF-8. The error comes when memory
    /// runs out.
    fn lint(&mut self, alloc: Global, bytes: Vec<u8>) -> Result<Linted, NoMemory>
        requires { length bytes.items < 2 ^ 32 }
        ensures answer { IfOk result (answers self.old bytes.items) }
        ensures sound { IfOk result IsSoundAnswer }
        ensures same { (bytes : List ℕ) (linted : Linted) → answers self.new bytes linted → answers self.old bytes linted };
}
