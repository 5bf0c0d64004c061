//! Laws of the lock machine.

ghost use Rattle.lock_machine.specs.Laws.{BirthsAreNew, BlocksAreOpen, NumbersCount};

/// The machine's mark says whether a transaction is open, and its number counts the earlier statements that end a transaction
/// or are outside of one.
pub fn numbers_count()
    ensures block { BlocksAreOpen }
    ensures number { NumbersCount }
{}

/// A table was born in the running transaction exactly where an earlier statement of the same open transaction creates it.
pub fn births_are_new()
    ensures { BirthsAreNew }
{}
