//! Which tokens and terminals a text has in which a run of tokens was exchanged.

ghost use Rattle.law_edit_tokens.specs.Exchange.{Rereads, RereadsAfterOne, FirstIsFree, MadeRereads};
ghost use Rattle.law_edit_tokens.specs.Edits.{ConcurrentlyRereads, WordRereads, SetRereads, WordEnds};
ghost use Rattle.law_edit_tokens.specs.Beside.{NoWordAfter, LetterFollows, LetterFollowsDot};
ghost use Rattle.law_edit_tokens.specs.Terminals.{TerminalsReread};

/// All tokens are at their places in the new text where the last two before the run, the new ones and the first one after it
/// are. One is enough where it is no operator, and the first one after the run is there where neither place is the start of
/// the text. New tokens may be given by their kinds and bytes.
pub fn tokens_stay()
    ensures two { Rereads }
    ensures one { RereadsAfterOne }
    ensures first { FirstIsFree }
    ensures made { MadeRereads }
{}

/// So it is where CONCURRENTLY is put after a token, where one word is in the place of a run of tokens, and where a Set is put
/// before the first significant token. No word goes on after a word, or where a mark or nothing follows; and after a name
/// or a dot, where no word goes on, a letter may follow.
pub fn edits_reread()
    ensures concurrently { ConcurrentlyRereads }
    ensures word { WordRereads }
    ensures set { SetRereads }
    ensures word_ends { WordEnds }
    ensures no_word { NoWordAfter }
    ensures letter { LetterFollows }
    ensures dot { LetterFollowsDot }
{}

/// The terminals are the old ones under other numbers, but for the run.
pub fn terminals_stay()
    ensures { TerminalsReread }
{}
