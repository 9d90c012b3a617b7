// What holds of the definitions.

ghost use Rattle.bf_word.specs.Laws.{WordsAreSet};

/// A word that was set is there, and every word and every cell beside it stays.
pub fn words_are_set()
    ensures { WordsAreSet }
{}
