//! What holds of the code of expressions and calls.

ghost use Rattle.c_valued.specs.Laws.{CallFreeExpressionsLand, StepsFitTheCost};
ghost use Rattle.c_valued.specs.DecidedLaws.{ConditionsDecide};
ghost use Rattle.c_valued.specs.CallingLaws.{CallCodeLands, ExpressionsLand};
ghost use Rattle.c_valued.specs.QuietLaws.{QuietKeepsState};

/// The code of an expression without calls leaves in A what the expression gives, and that of a condition comes to its target where the truth is as wanted.
pub fn call_free_expressions_land()
    ensures { CallFreeExpressionsLand }
{}

/// The operations that are counted for an expression are at most what its tree costs.
pub fn steps_fit_the_cost()
    ensures { StepsFitTheCost }
{}

/// A condition's code comes to its target where the truth is as wanted and else to its end, and code with two branches runs one of them.
pub fn conditions_decide()
    ensures { ConditionsDecide }
{}

/// The code of arguments leaves them in the frame, and that of a call gives what the call gives.
pub fn calls_land()
    ensures { CallCodeLands }
{}

/// The code of an expression leaves in A what the expression gives, and that of a condition comes to its target where the truth is as wanted.
pub fn expressions_land()
    ensures { ExpressionsLand }
{}

/// A quiet expression gives its value, or is undefined, in the state in which it stands.
pub fn quiet_keeps_state()
    ensures { QuietKeepsState }
{}
