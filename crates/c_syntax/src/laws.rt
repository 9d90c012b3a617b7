//! What holds of the definitions.

ghost use Rattle.c_syntax.specs.Laws.{MarksAreLongest, WordsAreLongest, NumbersAreLongest, TextsAreTheirParts};

/// The longest mark is taken.
pub fn marks_are_longest()
    ensures { MarksAreLongest }
{}

/// The longest name or keyword is taken.
pub fn words_are_longest()
    ensures { WordsAreLongest }
{}

/// The longest number is taken.
pub fn numbers_are_longest()
    ensures { NumbersAreLongest }
{}

/// A text is the join of blanks, comments and tokens, and nothing of it is lost.
pub fn texts_are_their_parts()
    ensures { TextsAreTheirParts }
{}
