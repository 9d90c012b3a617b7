//! What the trees that stand for operators do.

ghost use Rattle.c_fewer_values.specs.Laws.{ComplementsAreEvaluated, ElementsAreEvaluated, ElementsArePlaces, NumbersAreAssigned, OperatorsAreEvaluated, PointersAreAssigned, WideStepsAreTaken};

/// The tree of a binary operator does what the operator does.
pub fn operators_are_evaluated()
    ensures { OperatorsAreEvaluated }
{}

/// The tree of an assignment to a number with an operator does what the assignment does.
pub fn numbers_are_assigned()
    ensures { NumbersAreAssigned }
{}

/// The tree that moves a pointer to wide elements does what the assignment does.
pub fn pointers_are_assigned()
    ensures { PointersAreAssigned }
{}

/// The tree of an element of a wide array is the place that it was.
pub fn elements_are_places()
    ensures { ElementsArePlaces }
{}

/// It is worth what it was.
pub fn elements_are_evaluated()
    ensures { ElementsAreEvaluated }
{}

/// The tree of a step of a pointer to wide elements does what the step does.
pub fn wide_steps_are_taken()
    ensures { WideStepsAreTaken }
{}

/// The tree of a complement does what the operator does.
pub fn complements_are_evaluated()
    ensures { ComplementsAreEvaluated }
{}
