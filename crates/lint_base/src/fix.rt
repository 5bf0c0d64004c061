//! Fixes of what a report is about.
use crate::edit::Edit;
use crate::text::Text;
use std::cmp::Ordering;
use std::marker::Model;

/// A way to mend what a report is about: edits that are made together.
#[derive(Debug, Drop)]
pub struct Fix {
    /// What the fix does, in a few words.
    pub title: Text,
    /// The edits, all of them of the text as it was before any.
    pub edits: Vec<Edit>,
}

impl Model for Fix {
    ghost use Rattle.lint_base.specs.Fixes.{FixValue};

    ghost Value = { FixValue };

    ghost view = { λ fix. record { title = fix.title; edits = fix.edits.items } };
}

impl PartialEq for Fix {
    ghost use Rattle.std.specs.Cmp.{partial_equiv_from_equiv};
    ghost use Rattle.lint_base.specs.EditLaws.{fix_eq-equiv};
    ghost use Rattle.lint_base.specs.Fixes.{fix_eq};

    ghost eq = { fix_eq };

    ghost laws = { partial_equiv_from_equiv fix_eq-equiv };

    fn eq(&self, other: &Fix) -> bool {
        self.title == other.title && self.edits.as_slice() == other.edits.as_slice()
    }
}

impl Eq for Fix {
    ghost use Rattle.lint_base.specs.EditLaws.{fix_eq-equiv};

    ghost laws = { fix_eq-equiv };
}

impl Ord for Fix {
    ghost use Rattle.std.specs.Prelude.{refl};
    ghost use Rattle.lint_base.specs.EditLaws.{fix_cmp-total, fix_ties};
    ghost use Rattle.lint_base.specs.Fixes.{fix_cmp};

    ghost cmp = { fix_cmp };

    ghost total = { fix_cmp-total };

    ghost matches_partial_cmp = { λ a b. refl };

    ghost matches_eq = { fix_ties };

    fn cmp(&self, other: &Fix) -> Ordering {
        self.title
            .cmp(&other.title)
            .then(self.edits.as_slice().cmp(other.edits.as_slice()))
    }
}

impl PartialOrd for Fix {
    ghost use Rattle.std.specs.Prelude.{refl};
    ghost use Rattle.std.specs.Cmp.{partial_order_from_agreeing_total};
    ghost use Rattle.std.specs.Ordering.{as_partial_cmp};
    ghost use Rattle.lint_base.specs.EditLaws.{fix_cmp-total, fix_ties};
    ghost use Rattle.lint_base.specs.Fixes.{fix_cmp};

    ghost partial_cmp = { as_partial_cmp fix_cmp };

    ghost laws = { partial_order_from_agreeing_total fix_cmp fix_cmp-total (λ a b. refl) fix_ties };

    fn partial_cmp(&self, other: &Fix) -> Option<Ordering> {
        Some(self.cmp(other))
    }
}
