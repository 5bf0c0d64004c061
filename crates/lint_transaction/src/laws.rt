//! Laws of the definitions.

ghost use Rattle.lint_transaction.specs.HistoryLaws.{EachEventGrows, AnyEventGrows, SinceEventGrows, LastEventGrows};

/// What holds after a history goes on by one more event at its end: its pieces by those of the event, whether some event passes
/// by whether this one does, what was marked and not reset since, and the last event that passes.
pub fn histories_grow<E, A>()
    ensures each { EachEventGrows E A }
    ensures any { AnyEventGrows E }
    ensures since { SinceEventGrows E }
    ensures last { LastEventGrows E }
{}
