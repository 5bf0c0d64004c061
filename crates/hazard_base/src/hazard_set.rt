//! Sets of hazards.

ghost use Rattle.std.specs.Prelude.{◌≡◌, ◌&&◌, ◌||◌, not, true, false};
ghost use Rattle.hazard_base.specs.declared.hazard.Hazard.{Hazard};
ghost use Rattle.hazard_base.specs.Hazards.{same_hazard};
ghost use Rattle.hazard_base.specs.HazardSets.{has, with_hazard};

use crate::hazard::Hazard;

/// A set of hazards: for each, whether it is in the set.
#[derive(Clone, Copy, Debug, PartialEq, Eq)]
pub struct HazardSet {
    pub statement_in_transaction: bool,
    pub table_rewrite: bool,
    pub column_with_check: bool,
    pub build_under_timeout: bool,
    pub invalid_index_kept: bool,
    pub refresh_blocks_reads: bool,
    pub json_column: bool,
}

impl HazardSet {
    /// The set without a hazard.
    pub fn empty() -> HazardSet
        ensures { (q : Hazard) → has result q ≡ false }
    {
        HazardSet {
            statement_in_transaction: false,
            table_rewrite: false,
            column_with_check: false,
            build_under_timeout: false,
            invalid_index_kept: false,
            refresh_blocks_reads: false,
            json_column: false,
        }
    }

    /// The hazards that are enabled where nothing else is said: all of them.
    pub fn all_default() -> HazardSet
        ensures { (q : Hazard) → has result q ≡ true }
    {
        HazardSet {
            statement_in_transaction: true,
            table_rewrite: true,
            column_with_check: true,
            build_under_timeout: true,
            invalid_index_kept: true,
            refresh_blocks_reads: true,
            json_column: true,
        }
    }

    /// Whether a hazard is in the set.
    pub fn contains(&self, hazard: Hazard) -> bool
        ensures { result ≡ has self.now hazard }
    {
        match hazard {
            Hazard::StatementInTransaction => self.statement_in_transaction,
            Hazard::TableRewrite => self.table_rewrite,
            Hazard::ColumnWithCheck => self.column_with_check,
            Hazard::BuildUnderTimeout => self.build_under_timeout,
            Hazard::InvalidIndexKept => self.invalid_index_kept,
            Hazard::RefreshBlocksReads => self.refresh_blocks_reads,
            Hazard::JsonColumn => self.json_column,
        }
    }

    // Puts a hazard in, or takes it out.
    fn put(&mut self, hazard: Hazard, is_in: bool)
        ensures { self.new ≡ with_hazard self.old hazard is_in }
    {
        match hazard {
            Hazard::StatementInTransaction => self.statement_in_transaction = is_in,
            Hazard::TableRewrite => self.table_rewrite = is_in,
            Hazard::ColumnWithCheck => self.column_with_check = is_in,
            Hazard::BuildUnderTimeout => self.build_under_timeout = is_in,
            Hazard::InvalidIndexKept => self.invalid_index_kept = is_in,
            Hazard::RefreshBlocksReads => self.refresh_blocks_reads = is_in,
            Hazard::JsonColumn => self.json_column = is_in,
        }
    }

    /// Puts a hazard in.
    pub fn insert(&mut self, hazard: Hazard)
        ensures { (q : Hazard) → has self.new q ≡ (same_hazard q hazard || has self.old q) }
    {
        self.put(hazard, true);
    }

    /// Takes a hazard out.
    pub fn remove(&mut self, hazard: Hazard)
        ensures { (q : Hazard) → has self.new q ≡ (not (same_hazard q hazard) && has self.old q) }
    {
        self.put(hazard, false);
    }

    /// The hazards of both sets.
    pub fn union(self, other: HazardSet) -> HazardSet
        ensures { (q : Hazard) → has result q ≡ (has self q || has other q) }
    {
        HazardSet {
            statement_in_transaction: self.statement_in_transaction
                || other.statement_in_transaction,
            table_rewrite: self.table_rewrite || other.table_rewrite,
            column_with_check: self.column_with_check || other.column_with_check,
            build_under_timeout: self.build_under_timeout || other.build_under_timeout,
            invalid_index_kept: self.invalid_index_kept || other.invalid_index_kept,
            refresh_blocks_reads: self.refresh_blocks_reads || other.refresh_blocks_reads,
            json_column: self.json_column || other.json_column,
        }
    }
}
