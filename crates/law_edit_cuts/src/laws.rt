//! A list with one run of terminals in the place of another is cut at the same places.

ghost use Rattle.law_edit_cuts.specs.Exchanges.{ClosedIsLevel, LevelIsClosed, NeutralEndsNone, UncutHasNone, StatementsStay, StatementExchanges, PartsStay, PartExchanges, SoundIsClosed, PrefixIsLevel, SoundnessStays};

/// A closed run has as many closers as openers, and at no place more closers than openers before it; and a run like that is
/// closed. No statement ends in a neutral run, and each comma of an uncut run is in its brackets.
pub fn runs_are_closed()
    ensures level { ClosedIsLevel }
    ensures closed { LevelIsClosed }
    ensures neutral { NeutralEndsNone }
    ensures uncut { UncutHasNone }
{}

/// A text with one neutral run in the place of another is cut into the same statements, but that the one which holds the run
/// holds the other run now: at each place of a text, and of a statement, before which there are at most as many closers as
/// openers.
pub fn statements_stay()
    ensures text { StatementsStay }
    ensures statement { StatementExchanges }
{}

/// So it is with a list that is split at commas, and an uncut run: its part holds the other run, and all other parts stay.
pub fn parts_stay()
    ensures list { PartsStay }
    ensures part { PartExchanges }
{}

/// A sound statement stays sound where a closed run becomes one that is sound alone, opens no more brackets at once, and holds
/// neither of the words BEGIN ATOMIC. A sound list is closed, and at none of its places has more closers than openers before.
pub fn soundness_stays()
    ensures stays { SoundnessStays }
    ensures closed { SoundIsClosed }
    ensures level { PrefixIsLevel }
{}
