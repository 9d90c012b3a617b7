//! Why a typed text has code.

ghost use Rattle.c_fitting.specs.Laws.{TypedTextsAreFit};
ghost use Rattle.c_fitting.specs.InBlocksLaws.{UnitsDeclareInBlocks};
ghost use Rattle.c_fitting.specs.FewerBlocksLaws.{StatementsStayInBlocks, TextsStayInBlocks};

/// A typed text within the limits is fit to be compiled.
pub fn typed_texts_are_fit()
    ensures { TypedTextsAreFit }
{}

/// In a unit of the grammar no declaration is the body of a statement, nor the head of a `for` by itself.
pub fn units_declare_in_blocks()
    ensures { UnitsDeclareInBlocks }
{}

/// Of a statement.
pub fn statements_stay_in_blocks()
    ensures { StatementsStayInBlocks }
{}

/// Of a text, helper functions included.
pub fn texts_stay_in_blocks()
    ensures { TextsStayInBlocks }
{}
