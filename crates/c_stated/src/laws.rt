//! What holds of the code of statements.

ghost use Rattle.c_stated.specs.Laws.{DeclarationsLand, StatementStepsFit, StatementsLand, TextsLand};
ghost use Rattle.c_stated.specs.Worth.{UnitsAreWorth};
ghost use Rattle.c_stated.specs.CostsLaws.{CodeFitsItsCost, TextFitsItsCost};

/// The code of a statement comes to where the statement's flow goes on, with its objects in the frame, and each turn of a loop is paid for by its unit.
pub fn statements_land()
    ensures { StatementsLand }
{}

/// The code of a declaration sets the cells of its object, which lies in the frame.
pub fn declarations_land()
    ensures { DeclarationsLand }
{}

/// Where calls land, the code of a statement follows it whose operators are few and whose calls are of what may be called.
pub fn texts_land()
    ensures { TextsLand }
{}

/// The operations that are counted for a statement are at most what its tree costs, beside four for each word that is spelled in a first value.
pub fn statement_steps_fit()
    ensures { StatementStepsFit }
{}

/// The operations that are counted for a tree are at most what it costs and a use for each call in it, beside four for each word that is spelled.
pub fn units_are_worth()
    ensures { UnitsAreWorth }
{}

/// The operations and blocks of a tree's code are at most what the tree costs.
pub fn code_fits_its_cost()
    ensures { CodeFitsItsCost }
{}

/// The program of a text is at most what its functions and data words cost.
pub fn text_fits_its_cost()
    ensures { TextFitsItsCost }
{}
