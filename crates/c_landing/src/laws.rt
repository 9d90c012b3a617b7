//! What holds of pieces of code.

ghost use Rattle.c_landing.specs.Laws.{DirectValuesAreThere, OperandsLand, PartsLand};
ghost use Rattle.c_landing.specs.OperatedLaws.{OperatorsLand, OperatorsOnWords};
ghost use Rattle.c_landing.specs.StoredLaws.{AssignmentsLand};

/// One part of a run behind another is followed by the code of one behind that of the other.
pub fn parts_land()
    ensures { PartsLand }
{}

/// A value or a place that needs no evaluation is where the code has it, and is what the expression gives.
pub fn direct_values_are_there()
    ensures { DirectValuesAreThere }
{}

/// Both operands of an operator are evaluated in their order, whichever is loaded first.
pub fn operands_land()
    ensures { OperandsLand }
{}

/// What an operator gives of two values, it gives of their words: pointers move, lie apart and are equal as their addresses.
pub fn operators_on_words()
    ensures { OperatorsOnWords }
{}

/// The code of an operator behind its operands leaves in A what the operator gives.
pub fn operators_land()
    ensures { OperatorsLand }
{}

/// The code of an assignment evaluates the place first and then the value, and leaves the value at the place and in A.
pub fn assignments_land()
    ensures { AssignmentsLand }
{}
