// What holds of the definitions.

ghost use Rattle.bf_memory.specs.Row.{StoredWordsAreHeld};

/// A word that is stored at its place on the tape is stored in the memory, and every other word stays.
pub fn stored_words_are_held()
    ensures { StoredWordsAreHeld }
{}
