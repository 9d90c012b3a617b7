//! What desugaring leaves of expressions, statements and functions.

ghost use Rattle.c_compiled.specs.Few.{OperatorsAreFew};
ghost use Rattle.c_compiled.specs.Calls.{CallsMayBeCalled};
ghost use Rattle.c_compiled.specs.Lettered.{StatementsAreLettered};
ghost use Rattle.c_compiled.specs.Statements.{BodiesAreFew, StatementsAreFew};
ghost use Rattle.c_compiled.specs.Functions.{FunctionsOfTextsAreTextFunctions, TextScopesServe};
ghost use Rattle.c_compiled.specs.FewFunctionsLaws.{FunctionsAreFew};

/// Where operators became calls, few are left.
pub fn operators_are_few()
    ensures { OperatorsAreFew }
{}

/// Where operators became calls, calls are of what may be called.
pub fn calls_may_be_called()
    ensures { CallsMayBeCalled }
{}

/// Each literal of a statement stands where its number says, if the statement's do.
pub fn statements_are_lettered()
    ensures { StatementsAreLettered }
{}

/// Where operators became calls, the operators of each expression of a statement are few, and its calls are of what may be called.
pub fn statements_are_few()
    ensures { StatementsAreFew }
{}

/// So it is with a function's body, whose outer block shares its scope with the parameters.
pub fn bodies_are_few()
    ensures { BodiesAreFew }
{}

/// In each body of a typed text names have letters, digits and `_` alone, objects have words, and nothing leads out of it.
pub fn functions_of_texts_are_text_functions()
    ensures { FunctionsOfTextsAreTextFunctions }
{}

/// Names of a text and of its helper functions serve in such a scope and in each other one beside it.
pub fn text_scopes_serve()
    ensures { TextScopesServe }
{}

/// The body of a function whose operators became calls is as lowering asks: its operators are few, its calls are of what may be called, its literals stand where their numbers say, and nothing leads out of it.
pub fn functions_are_few()
    ensures { FunctionsAreFew }
{}
