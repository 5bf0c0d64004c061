//! Laws of the words that a program does not take.

ghost use Rattle.squawk_run.specs.Laws.{ForeignStaysUnset};

/// Words of which none is an option of these names set none of these names.
pub fn foreign_stays_unset()
    ensures { ForeignStaysUnset }
{}
