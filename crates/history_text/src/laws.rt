// Laws of the definitions.
ghost use Rattle.history_text.specs.Laws.{TextsAreSpelled, WordsAreApart, WordsReadBack};
ghost use Rattle.history_text.specs.ReadingBack.{HistoriesReadBack};

/// A word reads back as the bytes that it was written for, and other bytes have another word.
pub fn word_laws()
    ensures back { WordsReadBack }
    ensures apart { WordsAreApart }
{}

/// A history all of whose calls have a text reads back from what is written of it, call by call on lines 1, 2 and so on. Its
/// callers are then numbered as they first appear.
pub fn history_laws()
    ensures back { HistoriesReadBack }
{}

/// What is read of a text into a history is what its lines spell with no bound on the number of calls.
pub fn reading_laws()
    ensures spelled { TextsAreSpelled }
{}
