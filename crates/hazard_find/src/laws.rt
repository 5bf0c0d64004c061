//! Laws: what a text does not do in which a hazard is enabled and not found.

ghost use Rattle.hazard_find.specs.Laws.{BuildsAreUnlimited, ColumnsAreNoJson, ColumnsAreUnchecked, IndexesAreDroppedOrGuarded, TablesAreKept, TransactionsAreKept, ViewsAreMadeFirst};

/// Where a hazard is enabled and not found, no statement has it.
pub fn silence_tells()
    ensures transactions { TransactionsAreKept }
    ensures tables { TablesAreKept }
    ensures checks { ColumnsAreUnchecked }
    ensures timeouts { BuildsAreUnlimited }
    ensures indexes { IndexesAreDroppedOrGuarded }
    ensures views { ViewsAreMadeFirst }
    ensures types { ColumnsAreNoJson }
{}
