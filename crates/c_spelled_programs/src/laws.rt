//! The laws of the units that texts and tokens spell.

ghost use Rattle.c_spelled_programs.specs.Laws.{SpelledUnitsArePrograms};
ghost use Rattle.c_spelled_programs.specs.Tokens.{TokensAreOfText};
ghost use Rattle.c_spelled_programs.specs.SourceProgramsLaws.{TextsArePrograms};

/// A typed unit within the limits is a program, where tokens of a text spell it.
pub fn spelled_units_are_programs()
    ensures { SpelledUnitsArePrograms }
{}

/// The tokens to which a text of bytes is prepared are such as a text can have.
pub fn tokens_are_of_text()
    ensures { TokensAreOfText }
{}

/// A typed unit within the limits that a text of bytes spells is a program.
pub fn texts_are_programs()
    ensures { TextsArePrograms }
{}
