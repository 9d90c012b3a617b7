//! What follows from the definitions alone.

ghost use Rattle.c_types.specs.Laws.{EqualTypesAreOne, ConvertsByTheRule, CastsByTheRule, AssignmentsKeepTheRule, CallsKeepTheRule, LeastIsFirst, AnswersSay, RoomIsSmall};
ghost use Rattle.c_syntax.specs.Plain.{CUnit};

/// Types are found equal just where they are.
pub fn equal_types_are_one()
    ensures { EqualTypesAreOne }
{}

/// A value converts without a cast just where the rule says so.
pub fn values_convert_by_the_rule()
    ensures { ConvertsByTheRule }
{}

/// A cast converts just where the rule says so.
pub fn casts_convert_by_the_rule()
    ensures { CastsByTheRule }
{}

/// What is assigned converts, to a place of one word.
pub fn assignments_keep_the_rule()
    ensures { AssignmentsKeepTheRule }
{}

/// Each argument of a call converts to its parameter's type, and there are as many.
pub fn calls_keep_the_rule()
    ensures { CallsKeepTheRule }
{}

/// The refusal that is told of two is one of them, and comes before both.
pub fn the_least_refusal_is_told()
    ensures { LeastIsFirst }
{}

/// A typed text has a `main`. A text is accepted just where it is typed and within the limits, and is too large
/// only where it is typed.
pub fn answers_are_of_typed_texts()
    ensures { (u : CUnit) → AnswersSay u }
{}

/// A text within the limits has a room below 2^21.
pub fn room_is_small()
    ensures { RoomIsSmall }
{}
