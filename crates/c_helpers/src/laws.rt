//! What holds of the helper functions.

ghost use Rattle.c_helpers.specs.Laws.{CallsGoBack, FramesAreSmall, KindsAreHandedOn, KindsFitTheirRoom, NamesAreDistinct, NamesAreStrange, OperatorsHaveFunctions, UsesAreShort};

/// No text can name a helper function.
pub fn names_are_strange()
    ensures { NamesAreStrange }
{}

/// No two helper functions have one name.
pub fn names_are_distinct()
    ensures { NamesAreDistinct }
{}

/// No helper function calls itself, directly or through others.
pub fn calls_go_back()
    ensures { CallsGoBack }
{}

/// The frames of helper functions that call each other are together at most 1024 words.
pub fn frames_are_small()
    ensures { FramesAreSmall }
{}

/// A use of a helper function comes to at most 2^19 operations.
pub fn uses_are_short()
    ensures { UsesAreShort }
{}

/// The helper functions of a kind of operator fit the room that there is for it.
pub fn kinds_fit_their_room()
    ensures { KindsFitTheirRoom }
{}

/// Who calls a helper function for a kind of operator has one for that kind.
pub fn kinds_are_handed_on()
    ensures { KindsAreHandedOn }
{}

/// Each operator for which a helper function stands has that function.
pub fn operators_have_functions()
    ensures { OperatorsHaveFunctions }
{}
