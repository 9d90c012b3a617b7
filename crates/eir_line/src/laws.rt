//! Laws of the grammar.

ghost use Rattle.eir_line.specs.Spelling.{FormsAreSpelled};

/// A line has a form exactly where it spells it: labels, a statement, and the line's end or a comment, with blanks between them.
/// So a line spells one form at most.
pub fn forms_are_spelled()
    ensures { FormsAreSpelled }
{}
