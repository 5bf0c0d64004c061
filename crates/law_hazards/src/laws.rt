//! Laws of texts in which a hazard is enabled and not found.

ghost use Rattle.law_hazards.specs.Laws.{BuildsHaveTime, InvalidIndexesAreSeen, NothingIsRefusedInside, OnlyOursAreRewritten, OnlyOursGetChecks, OnlyOursGetJson, ViewsAreNew};

use hazard_find::laws::silence_tells;

/// Where a hazard is enabled and not found, the text does nothing that the hazard is about. A law for each hazard, in the order of their
/// declaration.
pub fn hazards_not_found()
    ensures statement_in_transaction { NothingIsRefusedInside }
    ensures table_rewrite { OnlyOursAreRewritten }
    ensures column_with_check { OnlyOursGetChecks }
    ensures build_under_timeout { BuildsHaveTime }
    ensures invalid_index_kept { InvalidIndexesAreSeen }
    ensures refresh_blocks_reads { ViewsAreNew }
    ensures json_column { OnlyOursGetJson }
{
    silence_tells()
}
