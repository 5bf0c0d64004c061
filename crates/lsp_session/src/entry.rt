//! How a checker is entered.
ghost use Rattle.std.specs.Prelude.{ℕ, List, Option, IfOk, MatchOption};

use lint_report::{NoMemory, Text};
use std::alloc::Global;

/// A checker that settles what it shows of texts when a session begins, from the root of the workspace.
pub trait Enter {
    /// The second is the first after it was entered at this root.
    ghost enters: { Self → Option (List ℕ) → Self → Type 0 };

    /// The second is the first after this root was refused, for the reason that this line gives.
    ghost refuses: { Self → Option (List ℕ) → List ℕ → Self → Type 0 };

    /// Enters the workspace that has this root, a path; `None` is a workspace without one. What comes is the line that says why it can't
    /// be entered, with no line feed; it may be tried again then. The error comes when memory runs out.
    fn enter(&mut self, alloc: Global, root: &Option<Text>) -> Result<Option<Text>, NoMemory>
        ensures { IfOk result (λ refused. MatchOption refused (enters self.old root.now self.new) (λ line. refuses self.old root.now line self.new)) };
}
