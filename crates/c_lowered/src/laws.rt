//! What holds of the code.

ghost use Rattle.c_lowered.specs.Laws.{CodeIsClosed, JumpsAreCounted};

/// Code has as many jumps as are counted of its tree, wherever it stands.
pub fn jumps_are_counted()
    ensures { JumpsAreCounted }
{}

/// The code of a text ends with a jump.
pub fn code_is_closed()
    ensures { CodeIsClosed }
{}
