//! The laws of the functions that are reached.

ghost use Rattle.c_fewer_reached.specs.Laws.{DefinedAreKept, KeptAreDefined, ReachedAreDefined, ReachedBegins, ReachedIsClosed};
ghost use Rattle.c_fewer_reached.specs.UpdatesLaws.{ExpressionsUpdate};

/// A function that is named in the body of one that is reached is reached.
pub fn reached_is_closed()
    ensures { ReachedIsClosed }
{}

/// So are `main` and the functions that are named in first values at file scope.
pub fn reached_begins()
    ensures { ReachedBegins }
{}

/// Each is a function that the text defines.
pub fn reached_are_defined()
    ensures { ReachedAreDefined }
{}

/// A text defines each function that is kept.
pub fn kept_are_defined()
    ensures { KeptAreDefined }
{}

/// It defines no other.
pub fn defined_are_kept()
    ensures { DefinedAreKept }
{}

/// An expression that tokens spell assigns by the operators that C has for it alone.
pub fn expressions_update()
    ensures { ExpressionsUpdate }
{}
