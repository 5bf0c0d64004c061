//! The hazards and their names.

ghost use Rattle.std.specs.Prelude.{◌≡◌, ◌↔◌, find, Some};
ghost use Rattle.hazard_base.specs.declared.hazard.Hazard.{Hazard};
ghost use Rattle.hazard_base.specs.Hazards as spec;
ghost use Rattle.hazard_base.specs.Hazards.{all_hazards, is_named, name_of, same_hazard};

use std::fmt;

/// A hazard, by which findings are named, enabled and ignored.
#[derive(Clone, Copy, Debug, PartialEq, Eq, Hash)]
pub enum Hazard {
    /// A statement that PostgreSQL refuses in a transaction is in one.
    StatementInTransaction,
    /// A table is written anew, or read whole and copied, while nobody can use it.
    TableRewrite,
    /// A new column with a `CHECK`, for which the table is scanned while nobody can use it.
    ColumnWithCheck,
    /// A timeout that the text set can cancel a concurrent build, which leaves an invalid index.
    BuildUnderTimeout,
    /// `IF NOT EXISTS` keeps the invalid index that a failed concurrent build left.
    InvalidIndexKept,
    /// `REFRESH MATERIALIZED VIEW` without `CONCURRENTLY` blocks readers.
    RefreshBlocksReads,
    /// A new column of type `json`, which has no equality.
    JsonColumn,
}

impl Hazard {
    /// Every hazard, in declaration order.
    pub const ALL: [Hazard; 7] = [
        Hazard::StatementInTransaction,
        Hazard::TableRewrite,
        Hazard::ColumnWithCheck,
        Hazard::BuildUnderTimeout,
        Hazard::InvalidIndexKept,
        Hazard::RefreshBlocksReads,
        Hazard::JsonColumn,
    ];

    /// The printed name: the variant's words in lower case, joined by `-`.
    #[tactic(auto, unfolding(crate::specs::Hazards::name_of))]
    pub fn name(self) -> &'static str
        ensures { result.now ≡ name_of self }
    {
        match self {
            Hazard::StatementInTransaction => "statement-in-transaction",
            Hazard::TableRewrite => "table-rewrite",
            Hazard::ColumnWithCheck => "column-with-check",
            Hazard::BuildUnderTimeout => "build-under-timeout",
            Hazard::InvalidIndexKept => "invalid-index-kept",
            Hazard::RefreshBlocksReads => "refresh-blocks-reads",
            Hazard::JsonColumn => "json-column",
        }
    }

    /// Whether two hazards are the same.
    #[tactic(auto, unfolding(crate::specs::Hazards::same_hazard))]
    pub fn is(self, other: Hazard) -> bool
        ensures { result ≡ same_hazard self other }
    {
        self == other
    }
}

impl fmt::Display for Hazard {
    ghost use Rattle.std.specs.Prelude.{Some};
    ghost use Rattle.hazard_base.specs.Hazards.{name_of};

    ghost output = { λ hazard. Some (name_of hazard) };

    fn fmt<W: fmt::Write>(&self, f: &mut fmt::Formatter<W>) -> fmt::Result {
        fmt::Display::fmt(&self.name(), f)
    }
}

// The first hazard of a list that has this name.
fn first_named(text: &str, hazards: &[Hazard]) -> Option<Hazard>
    ensures { result ≡ find (is_named text.now) hazards.now }
{
    for hazard in hazards {
        if hazard.name() == text {
            return Some(*hazard);
        }
    }
    None
}

/// The hazard that a text names: the one that has it as its printed name. It takes no memory.
pub fn hazard_named(text: &str) -> Option<Hazard>
    ensures value { result ≡ spec.hazard_named text.now }
    ensures named { (h : Hazard) → (result ≡ Some h) ↔ (text.now ≡ name_of h) }
{
    first_named(text, &Hazard::ALL)
}
