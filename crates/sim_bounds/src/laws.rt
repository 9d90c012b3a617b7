//! How far programs reach, and what their bounds come to.

ghost use Rattle.sim_bounds.specs.Closed.{BoundsAreClosed, ProgramsReachHalf};

/// No program reaches farther from an end of its memory than the middle.
pub fn programs_reach_half()
    ensures { ProgramsReachHalf }
{}

/// The bounds on a target's steps are numbers, by the size of the program and the number of its steps alone.
pub fn bounds_are_closed()
    ensures { BoundsAreClosed }
{}
