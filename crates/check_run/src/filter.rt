//! What leaves reports out.
ghost use Rattle.std.specs.Prelude.{All, IfOk, List};
ghost use Rattle.checked_file.specs.declared.checked.Checked.{Checked};
ghost use Rattle.checked_file.specs.Sound.{IsSound};

use checked_file::{Checked, NoMemory};
use std::alloc::Global;

/// What leaves reports out of the files of a run. `leaves` says what is left of them.
pub trait Filter {
    ghost leaves: { Self → List Checked → List Checked → Type 0 };

    /// What is left of the files of a run. The error comes when memory runs out.
    fn apply(&self, alloc: Global, files: Vec<Checked>) -> Result<Vec<Checked>, NoMemory>
        requires { All IsSound files.items }
        ensures left { IfOk result (λ all. leaves self.now files.items all.items) }
        ensures sound { IfOk result (λ all. All IsSound all.items) };
}
