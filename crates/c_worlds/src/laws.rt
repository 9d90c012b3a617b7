//! What a tree does depends on the calls of the functions that it names.

ghost use Rattle.c_worlds.specs.Laws.{RunsGoAlike, StatementsGoAlike};
ghost use Rattle.c_worlds.specs.ActionsLaws.{ActionsStayValid, UsesStayValid};
ghost use Rattle.c_worlds.specs.Silent.{OperatorsAreSilent};

/// A statement does the same in both worlds, and leaves no pointer to another function.
pub fn statements_go_alike()
    ensures { StatementsGoAlike }
{}

/// So does a run of a function.
pub fn runs_go_alike()
    ensures { RunsGoAlike }
{}

/// With valid values they lead from each valid state to one, and give a valid value.
pub fn actions_stay_valid()
    ensures { ActionsStayValid }
{}

/// So do uses of the helper functions themselves.
pub fn uses_stay_valid()
    ensures { UsesStayValid }
{}

/// All but those that print neither take nor write a byte.
pub fn operators_are_silent()
    ensures { OperatorsAreSilent }
{}
