//! Laws: which reports of the linter are of names of hazards.

ghost use Rattle.hazard_ignore.specs.Laws.{UnknownNamesAreTold, UnusedNamesStay};

/// A report that a name is unknown is matched to a hazard by that name; a report that a name covers nothing never is.
pub fn names_tell()
    ensures unknown { UnknownNamesAreTold }
    ensures unused { UnusedNamesStay }
{}
