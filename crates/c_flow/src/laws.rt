//! What holds of flat code.

ghost use Rattle.c_flow.specs.Laws.{LawOfCode};

/// The run of a text's flat code shows what the text means.
pub fn law_of_code()
    ensures { LawOfCode }
{}
