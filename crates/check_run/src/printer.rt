//! What writes answers.
ghost use Rattle.std.specs.Prelude.{◌≡◌, ℕ, All, IfOk, List};
ghost use Rattle.checked_file.specs.declared.checked.Checked.{Checked};
ghost use Rattle.checked_file.specs.Sound.{IsSound};

use checked_file::{Checked, NoMemory};
use std::alloc::Global;

/// What writes the answers of a run. `printed` says which bytes that is.
pub trait Printer {
    ghost printed: { Self → List Checked → List ℕ };

    /// What is written of the files of a run. The error comes when memory runs out.
    fn print(&self, alloc: Global, files: &[Checked]) -> Result<Vec<u8>, NoMemory>
        requires { All IsSound files.now }
        ensures { IfOk result (λ bytes. bytes.items ≡ printed self.now files.now) };
}
