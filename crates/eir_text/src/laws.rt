//! Laws of texts, of the lines in them and of what they say.

ghost use Rattle.eir_text.specs.Laws.{TextsSpellOnce, RefusalsAreExact, LinesSayPrograms, LinesMakeTheText, PiecesAreLaidOut, DataLabelsNameWhatFollows, TextLabelsNameWhatFollows, BlocksEndAtLabelsAndJumps, EachDefinitionCounts};
ghost use Rattle.eir_text.specs.LowestLine.{RefusalsNameTheLowestLine};

/// A text spells one program at most.
pub fn texts_spell_once()
    ensures { TextsSpellOnce }
{}

/// A text is refused just where it spells no program, or one of a size above 2^21.
pub fn refusals_are_exact()
    ensures { RefusalsAreExact }
{}

/// Whatever lines say is a program, unless it is too large.
pub fn lines_say_programs()
    ensures { LinesSayPrograms }
{}

/// Joined by line feeds the lines of a text are the text, and no line holds a line feed.
pub fn lines_make_the_text()
    ensures { LinesMakeTheText }
{}

/// Pieces are laid out by rising number, and the lines of each as they stand in the file.
pub fn pieces_are_laid_out()
    ensures { PiecesAreLaidOut }
{}

/// A data label stands for the address of what follows it.
pub fn data_labels_name_what_follows()
    ensures { DataLabelsNameWhatFollows }
{}

/// A text label stands for the number of the block that follows it.
pub fn text_labels_name_what_follows()
    ensures { TextLabelsNameWhatFollows }
{}

/// Blocks hold the operations of the lines in order, none is empty, and one ends just at a label or behind a jump.
pub fn blocks_end_at_labels_and_jumps()
    ensures { BlocksEndAtLabelsAndJumps }
{}

/// Where no name is defined twice, each definition gives its name its value.
pub fn each_definition_counts()
    ensures { EachDefinitionCounts }
{}

/// A refusal names the lowest line with such a fault.
pub fn refusals_name_the_lowest_line()
    ensures { RefusalsNameTheLowestLine }
{}
