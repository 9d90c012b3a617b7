//! What printed texts are to a reader.

ghost use Rattle.eir_print.specs.Laws.{PrintedTextsSpell, PrintedTextsAreShort};

/// The printed text of each program spells this program, so that reading what was printed gives the program again.
pub fn printed_texts_spell()
    ensures { PrintedTextsSpell }
{}

/// The printed text of a program has at most 2^28 bytes.
pub fn printed_texts_are_short()
    ensures { PrintedTextsAreShort }
{}
